// Rules that match the one event of a pair, as a batch.
use crate::declined::Declined;
use crate::keyed::{Keyed, Row};
use crate::rules::Rule;
use crate::stages::{Last, Stage};
use std::alloc::{AllocError, Global};

// A rule that matches the event, and its rank.
#[derive(Clone, Copy)]
pub struct Hit {
    pub rule: Rule,
    pub rank: i64,
}

// The rows of a batch, and the group of each, which is always the event's.
#[derive(Drop)]
pub struct Hits {
    picked: Keyed,
    groups: Vec<usize>,
}

impl Hits {
    // The rows that some rules put into the event.
    pub fn of(heap: Global, hits: &[Hit]) -> Result<Hits, AllocError> {
        let mut rows = Vec::new(heap);
        for hit in hits {
            rows.push(Row {
                value: i64::from(hit.rule),
                key: hit.rank,
            })?;
        }
        Ok(Hits {
            picked: Keyed::of(heap, &rows)?,
            groups: vec![in heap; 0usize; hits.len()]?,
        })
    }

    // Hands the rows to a stage and to a LAST.
    pub fn update(&self, stage: &mut Stage, last: &mut Last) -> Result<(), Declined> {
        self.picked.update_stage(stage, &self.groups, None, 1)?;
        self.picked.update_last(last)
    }
}
