// The rows that matches put into events, as a batch.
use crate::buffers::Flags;
use crate::declined::Declined;
use crate::events::Events;
use crate::keyed::{Keyed, Row};
use crate::rules::{Conditions, Match};
use crate::stages::Stage;
use std::alloc::{AllocError, Global};

// The rows of a batch: rules by ranks, the group of each, and the rules' own conditions.
#[derive(Drop)]
pub struct Rows {
    picked: Keyed,
    groups: Vec<usize>,
    holds: Flags,
}

impl Rows {
    // The rows that some matches put into the events.
    pub fn of(heap: Global, matches: &[Match], events: &Events) -> Result<Rows, AllocError> {
        let mut rows = Vec::new(heap);
        let mut groups = Vec::new(heap);
        for m in matches {
            rows.push(Row {
                value: i64::from(m.rule),
                key: m.rank,
            })?;
            groups.push(events.group(m.event) as usize)?;
        }
        Ok(Rows {
            picked: Keyed::of(heap, &rows)?,
            groups,
            holds: Flags::of(heap, &Conditions { matches }, matches.len())?,
        })
    }

    // Hands the rows to the stage, filtered by the rules' own conditions.
    pub fn update(&self, stage: &mut Stage, total: usize) -> Result<(), Declined> {
        let holds = self.holds.column()?;
        self.picked
            .update_stage(stage, &self.groups, Some(holds), total)
    }
}
