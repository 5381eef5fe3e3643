// SPACE: whether the caller's buffers have room for the first groups.
ghost use Rattle.std.specs.Prelude.{◌≡◌, ℕ, ◌≤◌, Bool, Some, Option, length};
ghost use Rattle.column.specs.Faults.{fault, SPACE, in_order};
ghost use Rattle.layout.specs.Written.{parts_seen, keys_seen, flag_parts_seen};
ghost use Rattle.tables.specs.Refusals.{keys_laid};
ghost use Rattle.book.specs.Declines.{order_column};
ghost use Rattle.book.specs.Emission.{keys_short};
ghost use Rattle.faults.specs.Reported.{declined_seen};
ghost use Rattle.keeping.specs.Seen.{outputs_seen};
ghost use Rattle.keeping.specs.Fronts.{cells_short, key_short, marks_short, state_short};

use crate::StateOutput;
use faults::{Fault, OwnFault, Place, located, own};
use layout::{FlagOutput, KeyOutputs, Output};
use tables::{OrderFault, RowOrder, ValueState};

// That as many groups are held as are written is a fact of a number and a table together, and clauses ask it.

// SPACE in the values.
fn check_values<S: ValueState>(state: &S, n: usize, out: &Output) -> Result<(), Fault>
    requires { n ≤ length (S.GroupTable.entries state.now) }
    ensures { declined_seen result ≡ cells_short (S.GroupTable.settings state.now) (S.GroupTable.entries state.now) n (parts_seen out.now) }
{
    located(state.fits(n, out), Place::Values, 0)
}

// SPACE in one key column, where the order reads it.
fn check_key<O: RowOrder>(order: &O, j: usize, n: usize, out: &Output) -> Result<(), Fault>
    requires { n ≤ length (O.GroupTable.entries order.now) }
    ensures { declined_seen result ≡ key_short (O.GroupTable.settings order.now) (O.GroupTable.entries order.now) j n (parts_seen out.now) }
{
    if j >= order.columns() {
        return Ok(());
    }
    located(order.key_fits(j, n, out), Place::of_key(j), 0)
}

// SPACE in a key column that has no buffers.
fn no_buffers(j: usize) -> Result<(), Fault>
    ensures { declined_seen result ≡ Some (fault SPACE in_order (order_column j) 0) }
{
    located(Err(OrderFault::Space), Place::of_key(j), 0)
}

// SPACE in the lowest key column that is short; a column past the third has no buffers.
fn check_keys<O: RowOrder>(order: &O, n: usize, out: &KeyOutputs) -> Result<(), Fault>
    requires { n ≤ length (O.GroupTable.entries order.now) }
    ensures { declined_seen result ≡ keys_short 0 (keys_laid (O.GroupTable.settings order.now) (O.GroupTable.entries order.now) n) (keys_seen out.now) }
{
    check_key(order, 0, n, &out.first)?;
    check_key(order, 1, n, &out.second)?;
    check_key(order, 2, n, &out.third)?;
    if order.columns() > 3 {
        return no_buffers(3);
    }
    Ok(())
}

// SPACE in the set flags.
fn check_flags(n: usize, out: &FlagOutput) -> Result<(), Fault>
    ensures { declined_seen result ≡ marks_short n (flag_parts_seen out.now) }
{
    if !out.has_room(n) {
        return Err(own(OwnFault::Space, Place::Marks, 0));
    }
    Ok(())
}

// SPACE in all parts of a state: the values, the lowest key column, the set flags, whatever these are.
pub(crate) fn check_space<S: ValueState, O: RowOrder>(
    state: &S,
    order: &O,
    n: usize,
    out: &StateOutput,
) -> Result<(), Fault>
    requires cells { n ≤ length (S.GroupTable.entries state.now) }
    requires keys { n ≤ length (O.GroupTable.entries order.now) }
    ensures { (flags : ℕ → Option Bool) → declined_seen result ≡ state_short (record { state = S.GroupTable.settings state.now; order = O.GroupTable.settings order.now; cells = S.GroupTable.entries state.now; keys = O.GroupTable.entries order.now; flags = flags }) n (outputs_seen out.now) }
{
    check_values(state, n, &out.values)?;
    check_keys(order, n, &out.keys)?;
    check_flags(n, &out.flags)
}
