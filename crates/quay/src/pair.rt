// A grouped and an ungrouped LAST of one event, made alike, which get the same batches.
ghost use Rattle.std.specs.Prelude.{◌≡◌, [], None, false, slice_index_or};
ghost use Rattle.std.specs.Bool.{Decides};
ghost use Rattle.grouped.specs.Accumulators as Grouped;
ghost use Rattle.ungrouped.specs.Accumulators as Ungrouped;
ghost use Rattle.parting.specs.Ending.{ShowSame, TiesDecideOf};

use crate::buffers::Numbers;
use crate::declined::taken;
use crate::hits::{Hit, Hits};
use crate::picks::{Picks, pick};
use crate::rules::Rule;
use crate::stages::{Last, Stage, new_last, new_stage};
use anyhow::anyhow;
use grouped::EmitTo;
use midnight::close_day;
use parting::hold_same;
use std::alloc::Global;

// The event is group 0 of the grouped one.
#[derive(Drop)]
pub struct Pair {
    grouped: Stage,
    last: Last,
}

// What an emission of one row picks; a row that no rule won is an error.
fn picked(values: &Numbers) -> anyhow::Result<Rule> {
    pick(values, 0).ok_or_else(|| anyhow!("no rule was picked"))
}

impl Pair {
    // Two that hold nothing.
    pub fn new() -> Pair
        ensures grouped { Grouped.Stands result.grouped [] }
        ensures ungrouped { Ungrouped.Stands result.last.single None }
    {
        Pair {
            grouped: new_stage(),
            last: new_last(),
        }
    }

    // Gives the rows that rules put into the event to both, as one batch.
    pub fn take(&mut self, heap: Global, hits: &[Hit]) -> anyhow::Result<()> {
        let batch = Hits::of(heap, hits)?;
        taken(batch.update(&mut self.grouped, &mut self.last))
    }

    // Whether the grouped one holds the event.
    pub fn is_held(&self) -> bool
        ensures { result ≡ slice_index_or (Grouped.held self.now.grouped).flags 0 false }
    {
        self.grouped.is_set(0)
    }

    // Whether both hold the same. While both were given nothing but the same batches, this says whether the first and the last top row of the deciding batch agree.
    pub fn hold_same(&self) -> bool
        ensures same { Decides result (ShowSame self.now.grouped self.now.last.single) }
        ensures ties { TiesDecideOf self.now.grouped self.now.last.single }
    {
        hold_same(&self.grouped, &self.last)
    }

    // At midnight the event leaves the grouped one, and the ungrouped one is asked: what each picks.
    pub fn settle(&mut self, heap: Global) -> anyhow::Result<Picks> {
        let mut left = Numbers::room(heap, 1)?;
        close_day(&mut self.grouped, EmitTo::All, &mut left.output(), &mut [0]).map_err(
            |fault| anyhow!("an event is not settled: declined {fault}"),
        )?;
        let mut kept = Numbers::room(heap, 1)?;
        self.last.evaluate(&mut kept.output()).map_err(|fault| anyhow!(
            "an event is not settled: declined {fault}"
        ))?;
        Ok(Picks {
            grouped: picked(&left)?,
            ungrouped: picked(&kept)?,
        })
    }
}
