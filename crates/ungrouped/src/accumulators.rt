//! The two accumulators without groups.
ghost use Rattle.std.specs.Prelude.{◌≡◌};

use crate::directions::{Direction, First, Last};
use crate::single::Single;
use std::marker::PhantomData;
use tables::GroupTable;

/// The first or the last value by an ordering key, as `D` says.
#[derive(Drop)]
pub struct ValueAccumulator<S: GroupTable, O: GroupTable, D: Direction> {
    pub(crate) single: Single<S, O>,
    pub(crate) direction: PhantomData<D>,
    ghost directed: { single.keeper.pick_first ≡ D.first },
}

/// The first value by an ordering key. The original's `FirstValueAccumulator` (`first_last.rs`).
pub type FirstValueAccumulator<S, O> = ValueAccumulator<S, O, First>;

/// The last value by an ordering key. The original's `LastValueAccumulator` (`first_last.rs`).
pub type LastValueAccumulator<S, O> = ValueAccumulator<S, O, Last>;
