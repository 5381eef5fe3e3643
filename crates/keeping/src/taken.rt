// LONG: cells that are not taken.
// What earlier checks found is asked of these functions in the words of those checks: it is a fact of an order and a column together, which no type of either can hold.
ghost use Rattle.std.specs.Prelude.{◌≡◌, true, not, None};
ghost use Rattle.column.specs.Cells.{same_kind};
ghost use Rattle.column.specs.Columns.{cell_at, count_up};
ghost use Rattle.column.specs.Faults.{fault, LONG, in_state};
ghost use Rattle.column.specs.Seen.{column_seen};
ghost use Rattle.tables.specs.Meaning.{state_of};
ghost use Rattle.tables.specs.Refusals.{named_unread};
ghost use Rattle.book.specs.Batches.{order_columns};
ghost use Rattle.book.specs.Declines.{at_row, at_column, cols, kind, rows_check, long, long_check};
ghost use Rattle.faults.specs.Reported.{declined_seen};
ghost use Rattle.keeping.specs.Seen.{given_seen, reading};

use crate::Given;
use crate::walks::at_column;
use column::Column;
use faults::{Fault, Place, located};
use tables::{RowOrder, ValueState};

// LONG in the value column. One question goes over all rows; the refusal itself is made by the call that names it, at the row that is found.
fn value_taken<S: ValueState>(state: &S, value: &Column) -> Result<(), Fault>
    requires { same_kind (column_seen value.now).kind (state_of (S.GroupTable.settings state.now)).kind ≡ true }
    ensures { declined_seen result ≡ at_row (λ r. not ((state_of (S.GroupTable.settings state.now)).takes (cell_at (column_seen value.now) r))) (λ r. fault LONG in_state 0 r) (count_up 0 value.now.rows) }
{
    match state.first_untaken(value) {
        Some(row) => located(state.takes(value, row), Place::Values, row),
        None => Ok(()),
    }
}

// LONG in one order column, in the same way.
fn column_taken<O: RowOrder>(order: &O, j: usize, column: &Column) -> Result<(), Fault>
    requires { named_unread (O.GroupTable.settings order.now).kinds j (column_seen column.now) ≡ None }
    ensures { declined_seen result ≡ long_check (O.GroupTable.settings order.now).takes (count_up 0 column.now.rows) j (column_seen column.now) }
{
    match order.first_untaken(j, column) {
        Some(row) => located(order.takes_named(j, column, row), Place::of_key(j), row),
        None => Ok(()),
    }
}

// LONG.
pub(crate) fn check_long<S: ValueState, O: RowOrder>(
    state: &S,
    order: &O,
    given: &Given,
) -> Result<(), Fault>
    requires read { cols (reading (S.GroupTable.settings state.now) (O.GroupTable.settings order.now)) (given_seen given.now) ≡ None }
    requires kinds { kind (reading (S.GroupTable.settings state.now) (O.GroupTable.settings order.now)) (given_seen given.now) ≡ None }
    requires alike { at_column (rows_check given.now.value.rows) 0 (order_columns (given_seen given.now)) ≡ None }
    ensures { declined_seen result ≡ long (reading (S.GroupTable.settings state.now) (O.GroupTable.settings order.now)) (given_seen given.now) }
{
    value_taken(state, &given.value)?;
    at_column(given, |j, column| column_taken(order, j, &column))
}
