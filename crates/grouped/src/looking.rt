//! What is held, to be looked at.
ghost use Rattle.std.specs.Prelude.{◌≡◌, false, length, slice_index_or};
ghost use Rattle.grouped.specs.Accumulators.{held};

use crate::FirstLastGroupsAccumulator;
use keeping::Keeper;
use tables::{RowOrder, ValueState};

impl<S: ValueState, O: RowOrder> FirstLastGroupsAccumulator<S, O> {
    /// How many groups are held.
    #[inline]
    pub fn groups(&self) -> usize
        ensures { result ≡ length (held self.now).flags }
    {
        self.slots.len
    }

    /// Whether a group is set; one that is not held is not.
    #[inline]
    pub fn is_set(&self, group: usize) -> bool
        ensures { result ≡ slice_index_or (held self.now).flags group false }
    {
        group < self.slots.len && self.slots.is_set(group)
    }

    /// The keeper of the held groups.
    #[inline]
    pub fn keeper(&self) -> &Keeper<S, O>
        ensures { result.now ≡ self.now.kept }
    {
        &self.kept
    }

    /// The values of the held groups.
    #[inline]
    pub fn values(&self) -> &S
        ensures { result.now ≡ self.now.kept.state }
    {
        &self.kept.state
    }

    /// The keys of the held groups.
    #[inline]
    pub fn keys(&self) -> &O
        ensures { result.now ≡ self.now.kept.order }
    {
        &self.kept.order
    }
}
