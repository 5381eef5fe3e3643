// A refusal as text.
use crate::ColumnFault;
use std::error::Error;
use std::fmt;

impl fmt::Display for ColumnFault {
    ghost use Rattle.std.specs.Prelude.{Some};
    ghost use Rattle.column.specs.Faults.{column_text};

    ghost output = { λ f. Some (column_text f) };

    fn fmt<W: fmt::Write>(&self, f: &mut fmt::Formatter<W>) -> fmt::Result {
        write!(f, "{} layer={}", self.number(), self.layer())
    }
}

impl Error for ColumnFault {}
