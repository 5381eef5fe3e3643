// A refusal as text.
use crate::OutputFault;
use std::error::Error;
use std::fmt;

impl fmt::Display for OutputFault {
    ghost use Rattle.std.specs.Prelude.{Some, codes};

    ghost output = { λ f. Some (codes "the output has no space") };

    fn fmt<W: fmt::Write>(&self, f: &mut fmt::Formatter<W>) -> fmt::Result {
        match self {
            OutputFault::Space => write!(f, "the output has no space"),
        }
    }
}

impl Error for OutputFault {}
