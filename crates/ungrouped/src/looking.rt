//! What an ungrouped accumulator holds, to be looked at.
ghost use Rattle.std.specs.Prelude.{◌≡◌};

use crate::ValueAccumulator;
use crate::directions::Direction;
use keeping::Keeper;
use tables::{RowOrder, ValueState};

impl<S: ValueState, O: RowOrder, D: Direction> ValueAccumulator<S, O, D> {
    /// The keeper, whose one group is the held row; its cells are null where none is held.
    #[inline]
    pub fn keeper(&self) -> &Keeper<S, O>
        ensures { result.now ≡ self.now.single.keeper }
    {
        &self.single.keeper
    }

    /// The state, whose first value is the held one; null where no row is held.
    #[inline]
    pub fn values(&self) -> &S
        ensures { result.now ≡ self.now.single.keeper.state }
    {
        &self.single.keeper.state
    }

    /// The order, whose first key is the held one; all null where no row is held.
    #[inline]
    pub fn keys(&self) -> &O
        ensures { result.now ≡ self.now.single.keeper.order }
    {
        &self.single.keeper.order
    }
}
