// ROWS: unequal row counts.
ghost use Rattle.std.specs.Prelude.{◌≡◌};
ghost use Rattle.column.specs.Seen.{column_seen, marks_seen};
ghost use Rattle.book.specs.Declines.{rows, rows_differ, rows_check};
ghost use Rattle.faults.specs.Reported.{declined_seen, place_number};
ghost use Rattle.keeping.specs.Seen.{given_seen};

use crate::Given;
use crate::walks::at_column;
use column::{BoolColumn, Column};
use faults::{Fault, OwnFault, Place, own};

// ROWS in one column.
pub(crate) fn same_rows(rows: usize, wanted: usize, place: Place) -> Result<(), Fault>
    ensures { declined_seen result ≡ rows_differ (place_number place) rows wanted }
{
    if rows != wanted {
        return Err(own(OwnFault::Rows, place, 0));
    }
    Ok(())
}

// ROWS in one order column.
fn column_rows(j: usize, column: &Column, rows: usize) -> Result<(), Fault>
    ensures { declined_seen result ≡ rows_check rows j (column_seen column.now) }
{
    same_rows(column.rows, rows, Place::of_key(j))
}

// ROWS among the order columns, then in the filter.
pub(crate) fn check_rows(given: &Given, filter: Option<BoolColumn>) -> Result<(), Fault>
    ensures { declined_seen result ≡ rows (given_seen given.now) (marks_seen filter.entry) }
{
    let rows = given.value.rows;
    at_column(given, |j, column| column_rows(j, &column, rows))?;
    same_rows(filter.map_or(rows, |flags| flags.rows), rows, Place::Marks)
}
