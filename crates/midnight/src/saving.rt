//! The state of finished events: it leaves the stage as a prefix, and the list of open group numbers follows.
ghost use Rattle.std.specs.Prelude.{◌≡◌, map, MatchResult};
ghost use Rattle.book.specs.Calls.{state};
ghost use Rattle.grouped.specs.Accumulators.{Obeys};
ghost use Rattle.grouped.specs.Notices.{renumbered};
ghost use Rattle.keeping.specs.Seen.{outputs_seen};
ghost use Rattle.grouped.specs.Seen.{to_seen};
ghost use Rattle.midnight.specs.Days.{day_seen};

use faults::Fault;
use grouped::{EmitTo, FirstLastGroupsAccumulator, StateOutput};
use tables::{RowOrder, ValueState};

/// Writes values, keys and set flags of the first groups, drops these, and renumbers the open group numbers; answers how many left.
///
/// Refused as `state` is: then nothing is written, dropped or renumbered.
pub fn save_day<S: ValueState, O: RowOrder>(
    stage: &mut FirstLastGroupsAccumulator<S, O>,
    leaving: EmitTo,
    out: &mut StateOutput,
    open: &mut [u32],
) -> Result<u32, Fault>
    ensures obeys { Obeys stage.old
        (state (to_seen leaving))
        (outputs_seen out.old)
        (record { result = day_seen result; outputs = outputs_seen out.new })
        stage.new }
    ensures renumbers { MatchResult result (λ n. «open».new ≡ map (renumbered n) «open».old) (λ _. «open».new ≡ «open».old) }
{
    let mut notice = stage.state(leaving, out)?;
    Ok(notice.renumber(open))
}
