//! How many groups leave, and what is held after them.
ghost use Rattle.std.specs.Prelude.{◌≡◌, ◌≤◌};
ghost use Rattle.book.specs.Emission.{emits};
ghost use Rattle.keeping.specs.Keepers.{Same};
ghost use Rattle.grouped.specs.Accumulators.{held};
ghost use Rattle.grouped.specs.Leaving.{without};
ghost use Rattle.grouped.specs.Seen.{to_seen};

use crate::{EmitTo, FirstLastGroupsAccumulator, ShiftNotice};
use tables::{RowOrder, ValueState};

impl EmitTo {
    // How many of the held groups leave.
    pub(crate) fn count(self, held: usize) -> usize
        ensures { result ≡ emits (to_seen self) held }
    {
        match self {
            EmitTo::All => held,
            EmitTo::First(n) => n,
        }
    }
}

impl<S: ValueState, O: RowOrder> FirstLastGroupsAccumulator<S, O> {
    // Drops the first groups, which are held, and answers a notice of how many.
    pub(crate) fn drop_groups(&mut self, n: usize) -> ShiftNotice
        requires { n ≤ self.old.slots.len }
        ensures dropped { result.dropped ≡ n }
        ensures after { held self.new ≡ without n (held self.old) }
        ensures made { Same self.old.kept self.new.kept }
    {
        let _ = self.kept.drop_first(n);
        self.slots.drop_first(n);
        ShiftNotice::of(n as u32)
    }
}
