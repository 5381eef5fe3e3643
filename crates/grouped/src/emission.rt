//! Emission: groups that leave as a prefix, with their values alone.
ghost use Rattle.std.specs.Prelude.{◌≡◌, ◌≤◌, IfOk};
ghost use Rattle.layout.specs.Written.{parts_seen};
ghost use Rattle.book.specs.Calls.{evaluate};
ghost use Rattle.keeping.specs.Replies.{values_only};
ghost use Rattle.grouped.specs.Accumulators.{Obeys};
ghost use Rattle.grouped.specs.Seen.{to_seen, emission_answer};

use crate::{EmitTo, FirstLastGroupsAccumulator, ShiftNotice};
use faults::Fault;
use layout::Output;
use tables::{RowOrder, ValueState};

impl<S: ValueState, O: RowOrder> FirstLastGroupsAccumulator<S, O> {
    /// Writes the values of the first groups, drops these, and answers a notice of how many: the original's `evaluate`.
    ///
    /// Refused, in this order: FEWER, SPACE. A refused call writes and drops nothing.
    pub fn evaluate(&mut self, emit_to: EmitTo, out: &mut Output) -> Result<ShiftNotice, Fault>
        ensures obeys { Obeys self.old
            (evaluate (to_seen emit_to))
            (values_only (parts_seen out.old))
            (record { result = emission_answer result; outputs = values_only (parts_seen out.new) })
            self.new }
        ensures unspent { IfOk result (λ t. t.dropped ≤ 256) }
    {
        let n = emit_to.count(self.slots.len);
        self.kept.write_values(n, out)?;
        Ok(self.drop_groups(n))
    }
}
