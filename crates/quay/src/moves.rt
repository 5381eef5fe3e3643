// The moves of a crane, in an ungrouped LAST of their own: the bay by the hour, counted from the first day on.
ghost use Rattle.std.specs.Prelude.{None};
ghost use Rattle.ungrouped.specs.Accumulators.{Stands};

use crate::buffers::Numbers;
use crate::declined::taken;
use crate::keyed::{Keyed, Row};
use crate::stages::{Last, new_last};
use anyhow::anyhow;
use std::alloc::Global;

// A move to a bay, at an hour.
#[derive(Clone, Copy)]
pub struct Move {
    pub bay: i64,
    pub hour: i64,
}

// The last move.
#[derive(Drop)]
pub struct Moves {
    last: Last,
}

impl Moves {
    // No move.
    pub fn new() -> Moves
        ensures { Stands result.last.single None }
    {
        Moves { last: new_last() }
    }

    // Takes a batch of moves in.
    pub fn take(&mut self, heap: Global, moves: &[Move]) -> anyhow::Result<()> {
        let mut rows = Vec::new(heap);
        for step in moves {
            rows.push(Row {
                value: step.bay,
                key: step.hour,
            })?;
        }
        taken(Keyed::of(heap, &rows)?.update_last(&mut self.last))
    }

    // The bay of the last move, if there is one; it stays.
    pub fn bay(&self, heap: Global) -> anyhow::Result<Option<i64>> {
        let mut kept = Numbers::room(heap, 1)?;
        self.last.evaluate(&mut kept.output()).map_err(|fault| anyhow!(
            "the moves are not shown: declined {fault}"
        ))?;
        Ok(kept.column().ok().and_then(|column| column.number(0)))
    }
}
