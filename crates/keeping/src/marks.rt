// FLAGS: flags that are not known.
ghost use Rattle.std.specs.Prelude.{◌≡◌, find, not};
ghost use Rattle.column.specs.Columns.{present, count_up};
ghost use Rattle.column.specs.Seen.{marks_seen};
ghost use Rattle.book.specs.Declines.{null_flag};
ghost use Rattle.faults.specs.Reported.{declined_seen};
ghost use Rattle.keeping.specs.Seen.{given_seen};

use crate::Given;
use column::BoolColumn;
use faults::{Fault, OwnFault, Place, own};

// The lowest row whose flag is not known.
fn first_unknown(flags: &BoolColumn, rows: usize) -> Option<usize>
    ensures { result ≡ find (λ r. not (present flags.now.validity.now r)) (count_up 0 rows) }
{
    for row in 0..rows {
        if flags.value(row).is_none() {
            return Some(row);
        }
    }
    None
}

// FLAGS, where there are flags.
pub(crate) fn check_flags(given: &Given, flags: Option<BoolColumn>) -> Result<(), Fault>
    ensures { declined_seen result ≡ null_flag (given_seen given.now) (marks_seen flags.entry) }
{
    let Some(flags) = flags else {
        return Ok(());
    };
    match first_unknown(&flags, given.value.rows) {
        Some(row) => Err(own(OwnFault::Flags, Place::Marks, row)),
        None => Ok(()),
    }
}
