// The columns of a call, made of the parts that a scenario writes.
use column::{BoolColumn, Column, ColumnFault};
use faults::{Fault, Place};
use keeping::Given;
use scenario::{Columns, Marks, Parts};
use std::alloc::AllocError;
use std::fmt;

// Why a call is declined: a column cannot be made, or the accumulator declines.
#[derive(Clone, Copy)]
pub enum Declined {
    Column { fault: ColumnFault, place: Place },
    Call(Fault),
}

// Why a call has no result.
#[derive(Clone, Copy)]
pub enum Stop {
    Declined(Declined),
    OutOfMemory,
}

impl From<Declined> for Stop {
    // The call is declined.
    fn from(why: Declined) -> Stop {
        Stop::Declined(why)
    }
}

impl From<Fault> for Stop {
    // The accumulator declines.
    fn from(fault: Fault) -> Stop {
        Stop::Declined(Declined::Call(fault))
    }
}

impl From<AllocError> for Stop {
    // Memory does not suffice.
    fn from(_error: AllocError) -> Stop {
        Stop::OutOfMemory
    }
}

impl fmt::Display for Declined {
    ghost use Rattle.std.specs.Prelude.{Some};
    ghost use Rattle.replay.specs.Texts.{declined_text};

    ghost output = { λ d. Some (declined_text d) };

    // The refusal by its numbers.
    fn fmt<W: fmt::Write>(&self, f: &mut fmt::Formatter<W>) -> fmt::Result {
        match self {
            Declined::Column { fault, place } => {
                write!(f, "{fault} column={} row=0", place.number())
            }
            Declined::Call(fault) => write!(f, "{fault}"),
        }
    }
}

// One column.
fn column(parts: &Parts, place: Place) -> Result<Column<'_>, Declined> {
    parts
        .column()
        .map_err(|fault| Declined::Column { fault, place })
}

// The columns of a call; of more than three keys all are made, and the first three are given.
pub fn given(columns: &Columns) -> Result<Given<'_, '_>, Declined> {
    let value = column(&columns.values, Place::Values)?;
    let mut orders = [value; 3];
    for (j, parts) in columns.keys.iter().enumerate() {
        let key = column(parts, Place::of_key(j))?;
        if j < orders.len() {
            orders[j] = key;
        }
    }
    Ok(Given {
        value,
        orders,
        count: columns.keys.len(),
    })
}

// A column of flags.
pub fn flags(marks: &Marks) -> Result<BoolColumn<'_>, Declined> {
    marks.column().map_err(|fault| Declined::Column {
        fault,
        place: Place::Marks,
    })
}

// A filter, if there is one.
pub fn filter(marks: &Option<Marks>) -> Result<Option<BoolColumn<'_>>, Declined> {
    match marks {
        None => Ok(None),
        Some(marks) => Ok(Some(flags(marks)?)),
    }
}
