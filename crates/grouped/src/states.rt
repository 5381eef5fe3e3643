//! States: groups that leave as a prefix, with all that another accumulator needs to take them in.
ghost use Rattle.std.specs.Prelude.{◌≡◌, ◌≤◌, ◌==◌, IfOk};
ghost use Rattle.column.specs.Checks.{refuse};
ghost use Rattle.column.specs.Faults.{EMPTY};
ghost use Rattle.book.specs.Calls.{state};
ghost use Rattle.book.specs.Declines.{own as own_fault};
ghost use Rattle.faults.specs.Reported.{declined_seen};
ghost use Rattle.keeping.specs.Seen.{outputs_seen};
ghost use Rattle.grouped.specs.Accumulators.{Obeys};
ghost use Rattle.grouped.specs.Seen.{to_seen, emission_answer};

use crate::{EmitTo, FirstLastGroupsAccumulator, ShiftNotice, StateOutput};
use faults::{Fault, OwnFault, Place, own};
use tables::{RowOrder, ValueState};

// EMPTY: a state of no group.
fn check_some(n: usize) -> Result<(), Fault>
    ensures { declined_seen result ≡ refuse (n == 0) (own_fault EMPTY) }
{
    if n == 0 {
        return Err(own(OwnFault::Empty, Place::Call, 0));
    }
    Ok(())
}

impl<S: ValueState, O: RowOrder> FirstLastGroupsAccumulator<S, O> {
    /// Writes values, keys and set flags of the first groups, drops these, and answers a notice of how many: the original's `state`.
    ///
    /// Refused, in this order: FEWER, EMPTY, SPACE in any part. A refused call writes and drops nothing.
    pub fn state(&mut self, emit_to: EmitTo, out: &mut StateOutput) -> Result<ShiftNotice, Fault>
        ensures obeys { Obeys self.old
            (state (to_seen emit_to))
            (outputs_seen out.old)
            (record { result = emission_answer result; outputs = outputs_seen out.new })
            self.new }
        ensures unspent { IfOk result (λ t. t.dropped ≤ 256) }
    {
        let n = emit_to.count(self.slots.len);
        check_some(n)?;
        self.kept.write_state(&self.slots, n, out)?;
        Ok(self.drop_groups(n))
    }
}
