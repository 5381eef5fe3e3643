// A board: for each event the label of the berth or shift that claimed it first, by the times of the log as text.
use crate::claims::{Claims, Labels};
use crate::declined::Declined;
use crate::events::Events;
use crate::saved::Saved;
use crate::texts::Texts;
use anyhow::anyhow;
use grouped::{EmitTo, FirstLastGroupsAccumulator};
use midnight::{close_day, save_day};
use orders::TextOrder;
use std::alloc::Global;
use tables::Sorting;
use values::BytesValueState;

// The stage of labels, and its events.
#[derive(Drop)]
pub struct Board {
    stage: Labels,
    pub events: Events,
}

impl Board {
    // A board without events.
    pub fn new(heap: Global) -> Board {
        let by_time = Sorting {
            descending: false,
            nulls_first: false,
        };
        let order = TextOrder::new(by_time);
        Board {
            stage: FirstLastGroupsAccumulator::new(BytesValueState::new(), order, true, false),
            events: Events::none(heap),
        }
    }

    // Takes a batch of claims in.
    pub fn take(&mut self, claims: &Claims) -> Result<(), Declined> {
        claims.update(&mut self.stage, self.events.held())
    }

    // Saves the state of all groups, which leave the board.
    pub fn save(&mut self, heap: Global) -> anyhow::Result<Saved> {
        let mut saved = Saved::room(heap, &self.events)?;
        let left = save_day(
            &mut self.stage,
            EmitTo::All,
            &mut saved.output(),
            &mut self.events.groups,
        );
        let dropped = left.map_err(|fault| anyhow!("a board is not saved: declined {fault}"))?;
        self.events.left(dropped);
        Ok(saved)
    }

    // Takes a saved state in, and goes on with the saved events.
    pub fn resume(&mut self, saved: &Saved) -> anyhow::Result<()> {
        let merged = saved.merge(&mut self.stage);
        merged.map_err(|why| anyhow!("a state is not merged: declined {why}"))?;
        self.events = saved.events.copied()?;
        Ok(())
    }

    // Whether both boards hold the same winners: then both answer every further call alike.
    pub fn agrees(&self, other: &Board) -> bool {
        self.stage.agrees(&other.stage)
    }

    // The labels of all groups, which leave the board.
    pub fn settle(&mut self, heap: Global) -> anyhow::Result<Texts> {
        let mut labels = Texts::room(heap, self.events.held())?;
        let left = close_day(
            &mut self.stage,
            EmitTo::All,
            &mut labels.output(),
            &mut self.events.groups,
        );
        let dropped = left.map_err(|fault| anyhow!("a board is not settled: declined {fault}"))?;
        self.events.left(dropped);
        Ok(labels)
    }
}
