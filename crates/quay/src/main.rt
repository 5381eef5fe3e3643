// Simulated days on the quay and the midnights after them, through the stage.
#![tactic(auto)]

mod board;
mod boards;
mod buffers;
mod claims;
mod crane_nights;
mod day;
mod days;
mod declined;
mod events;
mod hits;
mod keyed;
mod moves;
mod nights;
mod pair;
mod picks;
mod rows;
mod rules;
mod saved;
mod stages;
mod texts;
mod ties;
mod tops;

// Runs the days of the events, those of the labels, the ties, and the nights of a crane.
fn main(rt: HostRuntime) -> anyhow::Result<()> {
    days::run(&rt)?;
    nights::run(&rt)?;
    ties::run(&rt)?;
    crane_nights::run(&rt)
}
