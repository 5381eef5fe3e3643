//! Midnight: finished events leave the stage as a prefix, and the list of open group numbers follows.
#![tactic(auto)]

ghost use Rattle.std.specs.Prelude.{◌≡◌, map, MatchResult};
ghost use Rattle.layout.specs.Written.{parts_seen};
ghost use Rattle.book.specs.Calls.{evaluate};
ghost use Rattle.grouped.specs.Accumulators.{Obeys};
ghost use Rattle.grouped.specs.Notices.{renumbered};
ghost use Rattle.keeping.specs.Replies.{values_only};
ghost use Rattle.grouped.specs.Seen.{to_seen};
ghost use Rattle.midnight.specs.Days.{day_seen};

mod saving;

use faults::Fault;
use grouped::{EmitTo, FirstLastGroupsAccumulator};
use layout::Output;
pub use saving::save_day;
use tables::{RowOrder, ValueState};

/// Writes the values of the first groups, drops these, and renumbers the open group numbers; answers how many left.
///
/// Refused as `evaluate` is: then nothing is written, dropped or renumbered.
pub fn close_day<S: ValueState, O: RowOrder>(
    stage: &mut FirstLastGroupsAccumulator<S, O>,
    leaving: EmitTo,
    out: &mut Output,
    open: &mut [u32],
) -> Result<u32, Fault>
    ensures obeys { Obeys stage.old
        (evaluate (to_seen leaving))
        (values_only (parts_seen out.old))
        (record { result = day_seen result; outputs = values_only (parts_seen out.new) })
        stage.new }
    ensures renumbers { MatchResult result (λ n. «open».new ≡ map (renumbered n) «open».old) (λ _. «open».new ≡ «open».old) }
{
    let mut notice = stage.evaluate(leaving, out)?;
    Ok(notice.renumber(open))
}
