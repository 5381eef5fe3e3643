// A refusal as text.
use crate::Fault;
use std::error::Error;
use std::fmt;

impl fmt::Display for Fault {
    ghost use Rattle.std.specs.Prelude.{Some};
    ghost use Rattle.faults.specs.Reported.{fault_text, fault_seen};

    ghost output = { λ f. Some (fault_text (fault_seen f)) };

    fn fmt<W: fmt::Write>(&self, f: &mut fmt::Formatter<W>) -> fmt::Result {
        write!(
            f,
            "{} layer={} column={} row={}",
            self.number(),
            self.layer(),
            self.column(),
            self.row
        )
    }
}

impl Error for Fault {}
