// The state of a board, as it is saved over the night.
use crate::buffers::Flags;
use crate::claims::Labels;
use crate::declined::Declined;
use crate::events::Events;
use crate::texts::Texts;
use grouped::StateOutput;
use layout::{KeyOutputs, Output};
use std::alloc::{AllocError, Global};

// The labels, their times and the set flags, a row for each group, and the events that have these groups.
#[derive(Drop)]
pub struct Saved {
    pub labels: Texts,
    pub times: Texts,
    set: Flags,
    rows: Vec<usize>,
    pub events: Events,
}

// The buffers of a column that the order does not read.
fn nothing<'a>() -> Output<'a> {
    Output {
        validity: &mut [],
        offsets: &mut [],
        data: &mut [],
    }
}

impl Saved {
    // Room for the state of all groups that some events have.
    pub fn room(heap: Global, events: &Events) -> Result<Saved, AllocError> {
        let rows = events.held();
        Ok(Saved {
            labels: Texts::room(heap, rows)?,
            times: Texts::room(heap, rows)?,
            set: Flags::room(heap, rows)?,
            rows: (0..rows).collect(heap)?,
            events: events.copied()?,
        })
    }

    // Where the state is written to.
    pub fn output(&mut self) -> StateOutput<'_> {
        StateOutput {
            values: self.labels.output(),
            keys: KeyOutputs {
                first: self.times.output(),
                second: nothing(),
                third: nothing(),
            },
            flags: self.set.output(),
        }
    }

    // Whether the group of a row is set.
    pub fn is_set(&self, row: usize) -> bool {
        self.set.column().is_ok_and(|set| set.is_true(row))
    }

    // Merges the state into a stage, each row into the group of its number.
    pub fn merge(&self, stage: &mut Labels) -> Result<(), Declined> {
        let labels = self.labels.column()?;
        let times = [self.times.column()?; 3];
        let set = self.set.column()?;
        stage.merge_batch(labels, times, 1, &self.rows, set, self.rows.len())?;
        Ok(())
    }
}
