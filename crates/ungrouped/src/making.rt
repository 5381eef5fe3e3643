//! Making an ungrouped accumulator.
ghost use Rattle.std.specs.Prelude.{◌≡◌, None};
ghost use Rattle.tables.specs.Meaning.{state_of};
ghost use Rattle.ungrouped.specs.Accumulators.{alone, Stands};

use crate::ValueAccumulator;
use crate::directions::Direction;
use crate::single::Single;
use keeping::Keeper;
use std::marker::PhantomData;
use tables::{RowOrder, ValueState};

impl<S: ValueState, O: RowOrder> Single<S, O> {
    // Holds nothing yet.
    fn new(
        state: S,
        order: O,
        pick_first: bool,
        ignore_nulls: bool,
        is_input_pre_ordered: bool,
    ) -> Self
        ensures unset { Stands result None }
        ensures made { alone result ≡ record { making = record { state = state_of (S.GroupTable.settings state); order = O.GroupTable.settings order; first = pick_first; ignore_nulls = ignore_nulls }; in_order = is_input_pre_ordered } }
    {
        let mut keeper = Keeper::new(state, order, pick_first, ignore_nulls);
        let _ = keeper.grow(1);
        Single {
            keeper,
            held: None,
            is_input_pre_ordered,
        }
    }
}

impl<S: ValueState, O: RowOrder, D: Direction> ValueAccumulator<S, O, D> {
    /// An accumulator that holds no row; the state and the order are emptied. The original's `try_new`.
    ///
    /// `ignore_nulls` leaves rows with a null value out of updates; `is_input_pre_ordered` says that the rows of all updates arrive in the order of their keys.
    pub fn new(state: S, order: O, ignore_nulls: bool, is_input_pre_ordered: bool) -> Self
        ensures unset { Stands result.single None }
        ensures made { alone result.single ≡ record { making = record { state = state_of (S.GroupTable.settings state); order = O.GroupTable.settings order; first = D.first; ignore_nulls = ignore_nulls }; in_order = is_input_pre_ordered } }
    {
        ValueAccumulator {
            single: Single::new(
                state,
                order,
                D::is_first(),
                ignore_nulls,
                is_input_pre_ordered,
            ),
            direction: PhantomData,
        }
    }
}
