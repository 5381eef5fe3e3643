// A board and a twin of it, which take the same claims.
use crate::board::Board;
use crate::claims::{Claim, Claims};
use crate::declined::Declined;

// Two boards that are made alike.
#[derive(Drop)]
pub struct Boards {
    pub board: Board,
    pub twin: Board,
}

// Shows a claim.
fn announce(rt: &HostRuntime, claim: &Claim) -> anyhow::Result<()> {
    let label = claim.label;
    let event = claim.event;
    match claim.time {
        Some(time) => println!(rt; "  {label} claims event {event} at {time}")?,
        None => println!(rt; "  {label} claims event {event}, with no time in the log")?,
    }
    Ok(())
}

// Shows that a board declines a batch, if it does.
fn report(rt: &HostRuntime, who: &str, answer: Result<(), Declined>) -> anyhow::Result<()> {
    if let Err(why) = answer {
        println!(rt; "  {who} declines the batch: {why}")?;
    }
    Ok(())
}

impl Boards {
    // Two boards without events.
    pub fn new(rt: &HostRuntime) -> Boards {
        Boards {
            board: Board::new(rt.alloc()),
            twin: Board::new(rt.alloc()),
        }
    }

    // Opens so many events on both.
    pub fn open_events(&mut self, rt: &HostRuntime, more: u32) -> anyhow::Result<()> {
        for _ in 0..more {
            let event = self.board.events.groups.len();
            let group = self.board.events.open()?;
            self.twin.events.open()?;
            println!(rt; "  event {event} opens as group {group}")?;
        }
        Ok(())
    }

    // Gives some claims to both as one batch.
    pub fn claim(&mut self, rt: &HostRuntime, claims: &[Claim]) -> anyhow::Result<()> {
        for claim in claims {
            announce(rt, claim)?;
        }
        let rows = Claims::of(rt.alloc(), claims, &self.board.events)?;
        report(rt, "the board", self.board.take(&rows))?;
        report(rt, "the twin", self.twin.take(&rows))
    }

    // Says whether both hold the same, and what that means.
    pub fn compare(&self, rt: &HostRuntime) -> anyhow::Result<()> {
        if self.board.agrees(&self.twin) {
            println!(rt;
                "  the board holds what the twin holds: both will answer every further call alike"
            )?;
        } else {
            println!(rt;
                "  the board does not hold what the twin holds: some further calls would tell them apart"
            )?;
        }
        Ok(())
    }

    // Both are settled: shows the label that each gives to every event.
    pub fn settle(&mut self, rt: &HostRuntime) -> anyhow::Result<()> {
        let before = self.board.events.groups.clone()?;
        let labels = self.board.settle(rt.alloc())?;
        let others = self.twin.settle(rt.alloc())?;
        for (event, group) in before.iter().enumerate() {
            let label = labels.text(*group as usize).unwrap_or("nobody");
            let other = others.text(*group as usize).unwrap_or("nobody");
            println!(rt;
                "  event {event} goes to {label} on the board, and to {other} on the twin"
            )?;
        }
        Ok(())
    }
}
