//! Refusals as text.
use crate::{OrderFault, StateFault, TableFault};
use std::error::Error;
use std::fmt;

impl fmt::Display for TableFault {
    ghost use Rattle.std.specs.Prelude.{Some};
    ghost use Rattle.tables.specs.Said.{table_text};

    ghost output = { λ f. Some (table_text f) };

    fn fmt<W: fmt::Write>(&self, f: &mut fmt::Formatter<W>) -> fmt::Result {
        match self {
            TableFault::Total => write!(f, "more than 256 groups"),
            TableFault::Shrunk => write!(f, "fewer groups than are held"),
            TableFault::Fewer => write!(f, "more groups than are held"),
        }
    }
}

impl fmt::Display for StateFault {
    ghost use Rattle.std.specs.Prelude.{Some};
    ghost use Rattle.tables.specs.Said.{state_text};

    ghost output = { λ f. Some (state_text f) };

    fn fmt<W: fmt::Write>(&self, f: &mut fmt::Formatter<W>) -> fmt::Result {
        match self {
            StateFault::Table(fault) => write!(f, "{fault}"),
            StateFault::Group => write!(f, "the group is not held"),
            StateFault::Kind => write!(f, "the column is of another kind"),
            StateFault::Rows => write!(f, "the row is past the column"),
            StateFault::Long => write!(f, "the cell is not taken"),
            StateFault::Space => write!(f, "the output has no space"),
        }
    }
}

impl fmt::Display for OrderFault {
    ghost use Rattle.std.specs.Prelude.{Some};
    ghost use Rattle.tables.specs.Said.{order_text};

    ghost output = { λ f. Some (order_text f) };

    fn fmt<W: fmt::Write>(&self, f: &mut fmt::Formatter<W>) -> fmt::Result {
        match self {
            OrderFault::Table(fault) => write!(f, "{fault}"),
            OrderFault::Cols => write!(f, "the columns are not those that are read"),
            OrderFault::Group => write!(f, "the group is not held"),
            OrderFault::Kind => write!(f, "a column is of another kind"),
            OrderFault::Rows => write!(f, "a row is past a column"),
            OrderFault::Long => write!(f, "a cell is not taken"),
            OrderFault::Space => write!(f, "the outputs have no space"),
        }
    }
}

impl Error for TableFault {}

impl Error for StateFault {}

impl Error for OrderFault {}
