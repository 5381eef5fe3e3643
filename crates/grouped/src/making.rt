//! Making a grouped accumulator.
ghost use Rattle.std.specs.Prelude.{◌≡◌, []};
ghost use Rattle.tables.specs.Meaning.{state_of};
ghost use Rattle.grouped.specs.Accumulators.{making, Stands};

use crate::FirstLastGroupsAccumulator;
use crate::slots::SlotTable;
use keeping::Keeper;
use tables::{RowOrder, ValueState};

impl<S: ValueState, O: RowOrder> FirstLastGroupsAccumulator<S, O> {
    /// An accumulator of no group: the original's `try_new`. The state and the order are emptied. FIRST where `pick_first_in_group`, else LAST; `ignore_nulls` leaves rows with a null value out.
    pub fn new(state: S, order: O, pick_first_in_group: bool, ignore_nulls: bool) -> Self
        ensures empty { Stands result [] }
        ensures making { making result ≡ record { state = state_of (S.GroupTable.settings state); order = O.GroupTable.settings order; first = pick_first_in_group; ignore_nulls = ignore_nulls } }
    {
        FirstLastGroupsAccumulator {
            kept: Keeper::new(state, order, pick_first_in_group, ignore_nulls),
            slots: SlotTable::new(),
        }
    }
}
