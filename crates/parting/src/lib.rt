//! Where a grouped and an ungrouped LAST part.
#![tactic(auto)]

ghost use Rattle.std.specs.Bool.{Decides};
ghost use Rattle.parting.specs.Ending.{ShowSame, TiesDecideOf};

use grouped::FirstLastGroupsAccumulator;
use tables::{RowOrder, ValueState};
use ungrouped::LastValueAccumulator;

/// Whether group 0 of a grouped accumulator and an ungrouped LAST hold the same: both are unset, or they have the same value and the same key.
///
/// Of two LAST that were made alike and given nothing but the same batches, this says whether no row was admitted, or the first and the last top row of the deciding batch agree.
pub fn hold_same<S: ValueState, O: RowOrder>(
    grouped: &FirstLastGroupsAccumulator<S, O>,
    last: &LastValueAccumulator<S, O>,
) -> bool
    ensures same { Decides result (ShowSame grouped.now last.now.single) }
    ensures ties { TiesDecideOf grouped.now last.now.single }
{
    match (grouped.is_set(0), last.is_set()) {
        (true, true) => grouped.keeper().same_row(0, last.keeper(), 0),
        (mine, theirs) => mine == theirs,
    }
}
