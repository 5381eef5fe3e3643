// A day on the quay: events are groups of the stage, rules put rows into them, and midnight lets the finished ones go.
use crate::buffers::Numbers;
use crate::events::Events;
use crate::picks::pick;
use crate::rows::Rows;
use crate::rules::{Match, Rule};
use crate::stages::{Stage, new_stage};
use grouped::{EmitTo, FINISHED};
use midnight::close_day;

// The stage, LAST by rank; its events; and all matches that were admitted.
#[derive(Drop)]
pub struct Day {
    stage: Stage,
    events: Events,
    log: Vec<Match>,
}

// Why a match won its event: its rank, how many matches have that rank, and how many there are.
#[derive(Clone, Copy)]
struct Reason {
    top: i64,
    tied: usize,
    all: usize,
}

impl Reason {
    // Why some match of the event won, by the ranks of all that were admitted; none where none was.
    fn of(log: &[Match], event: usize) -> Option<Reason> {
        let top = log
            .iter()
            .filter(|m| m.event == event)
            .map(|m| m.rank)
            .max()?;
        let tied = log
            .iter()
            .filter(|m| m.event == event && m.rank == top)
            .count();
        let all = log.iter().filter(|m| m.event == event).count();
        Some(Reason { top, tied, all })
    }
}

impl Day {
    // A day without events.
    pub fn new(rt: &HostRuntime) -> Day {
        Day {
            stage: new_stage(),
            events: Events::none(rt.alloc()),
            log: Vec::new(rt.alloc()),
        }
    }

    // Opens so many events more, as groups at the end.
    pub fn open_events(&mut self, rt: &HostRuntime, more: u32) -> anyhow::Result<()> {
        for _ in 0..more {
            let event = self.events.groups.len();
            let group = self.events.open()?;
            println!(rt; "  event {event} opens as group {group}")?;
        }
        Ok(())
    }

    // Shows the row that a match puts into its event.
    fn announce(&self, rt: &HostRuntime, m: &Match) -> anyhow::Result<()> {
        let rule = m.rule;
        let event = m.event;
        let rank = m.rank;
        let group = self.events.group(event);
        let note = if m.holds {
            ""
        } else {
            ", but its condition does not hold"
        };
        println!(rt; "  {rule} puts a row of rank {rank} into event {event}, group {group}{note}")?;
        Ok(())
    }

    // Gives the matches of some rules to the stage as one batch, and keeps the admitted ones, to explain the picks later.
    pub fn batch(&mut self, rt: &HostRuntime, matches: &[Match]) -> anyhow::Result<()> {
        for m in matches {
            self.announce(rt, m)?;
        }
        let rows = Rows::of(rt.alloc(), matches, &self.events)?;
        if let Err(declined) = rows.update(&mut self.stage, self.events.held()) {
            println!(rt; "  declined {declined}")?;
            return Ok(());
        }
        for m in matches.iter().filter(|m| m.holds) {
            self.log.push(*m)?;
        }
        Ok(())
    }

    // Says which rule an event that leaves was settled by, and why.
    fn explain(&self, rt: &HostRuntime, event: usize, picked: Option<Rule>) -> anyhow::Result<()> {
        let (Some(rule), Some(why)) = (picked, Reason::of(&self.log, event)) else {
            println!(rt; "  event {event} leaves: no rule matched it")?;
            return Ok(());
        };
        let Reason { top, tied, all } = why;
        if tied > 1 {
            println!(rt;
                "  event {event} leaves: {rule} wins with rank {top}; {tied} of {all} rows tie there, and the earliest stays"
            )?;
        } else {
            println!(rt;
                "  event {event} leaves: {rule} wins with rank {top}, the highest of {all}"
            )?;
        }
        Ok(())
    }

    // The first groups leave, and the others are renumbered.
    pub fn midnight(&mut self, rt: &HostRuntime, leaving: usize) -> anyhow::Result<()> {
        let before = self.events.groups.clone()?;
        let mut values = Numbers::room(rt.alloc(), leaving)?;
        let to = EmitTo::First(leaving);
        let left = close_day(
            &mut self.stage,
            to,
            &mut values.output(),
            &mut self.events.groups,
        );
        let dropped = match left {
            Ok(dropped) => dropped,
            Err(fault) => {
                println!(rt; "  declined {fault}")?;
                return Ok(());
            }
        };
        self.events.left(dropped);
        for (event, group) in before.iter().enumerate() {
            if *group < dropped {
                self.explain(rt, event, pick(&values, *group as usize))?;
            }
        }
        self.renumbered(rt, &before)
    }

    // Shows what the group numbers became.
    fn renumbered(&self, rt: &HostRuntime, before: &[u32]) -> anyhow::Result<()> {
        for (event, (old, new)) in before.iter().zip(self.events.groups.iter()).enumerate() {
            if *old == FINISHED {
                println!(rt; "  event {event} stays finished")?;
            } else if *new == FINISHED {
                println!(rt; "  event {event} was group {old} and is finished")?;
            } else {
                println!(rt; "  event {event} was group {old} and is now group {new}")?;
            }
        }
        Ok(())
    }
}
