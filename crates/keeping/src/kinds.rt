// COLS and KIND: the columns that an accumulator reads.
ghost use Rattle.std.specs.Prelude.{◌≡◌, ◌<◌, not, Bool, length, None};
ghost use Rattle.column.specs.Cells.{same_kind};
ghost use Rattle.column.specs.Checks.{refuse};
ghost use Rattle.column.specs.Faults.{fault, KIND, in_state};
ghost use Rattle.column.specs.Seen.{column_seen};
ghost use Rattle.tables.specs.Meaning.{Settings, state_of};
ghost use Rattle.book.specs.Declines.{cols, kind, kind_check};
ghost use Rattle.faults.specs.Reported.{declined_seen};
ghost use Rattle.keeping.specs.Seen.{given_seen, made_with, reading};

use crate::Given;
use crate::walks::at_column;
use column::Column;
use faults::{Fault, OwnFault, Place, located, own};
use tables::{RowOrder, ValueState, check_count};

// COLS.
pub(crate) fn check_cols<O: RowOrder>(order: &O, given: &Given) -> Result<(), Fault>
    ensures { (s : Settings) (first nulls : Bool) → declined_seen result ≡ cols (made_with s (O.GroupTable.settings order.now) first nulls) (given_seen given.now) }
{
    check_count(order.columns(), given.count).map_err(|_| own(OwnFault::Cols, Place::Call, 0))
}

// KIND in the value column.
fn value_kind<S: ValueState>(state: &S, value: &Column) -> Result<(), Fault>
    ensures { declined_seen result ≡ refuse (not (same_kind (column_seen value.now).kind (state_of (S.GroupTable.settings state.now)).kind)) (fault KIND in_state 0 0) }
{
    located(state.reads(value), Place::Values, 0)
}

// KIND in one order column.
fn order_kind<O: RowOrder>(order: &O, j: usize, column: &Column) -> Result<(), Fault>
    requires { j < length (O.GroupTable.settings order.now).kinds }
    ensures { declined_seen result ≡ kind_check (O.GroupTable.settings order.now).kinds j (column_seen column.now) }
{
    located(order.reads_named(j, column), Place::of_key(j), 0)
}

// KIND.
pub(crate) fn check_kinds<S: ValueState, O: RowOrder>(
    state: &S,
    order: &O,
    given: &Given,
) -> Result<(), Fault>
    requires { cols (reading (S.GroupTable.settings state.now) (O.GroupTable.settings order.now)) (given_seen given.now) ≡ None }
    ensures { declined_seen result ≡ kind (reading (S.GroupTable.settings state.now) (O.GroupTable.settings order.now)) (given_seen given.now) }
{
    value_kind(state, &given.value)?;
    at_column(given, |j, column| order_kind(order, j, &column))
}
