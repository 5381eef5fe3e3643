// Two days on the quay: rules put rows into events, and at midnight the finished ones leave.
use crate::day::Day;
use crate::rules::{Match, Rule};

// A rule whose condition holds.
const fn holds(event: usize, rule: Rule, rank: i64) -> Match {
    Match {
        event,
        rule,
        rank,
        holds: true,
    }
}

// Four events open, and the rules look at them.
fn morning(rt: &HostRuntime, day: &mut Day) -> anyhow::Result<()> {
    println!(rt; "Morning: four events open, and the rules look at them.")?;
    day.open_events(rt, 4)?;
    day.batch(
        rt,
        &[
            holds(0, Rule::Breakdown, 7),
            holds(1, Rule::BerthChange, 2),
            holds(0, Rule::ShiftEnd, 7),
            holds(2, Rule::ShiftEnd, 4),
            holds(3, Rule::BerthChange, 1),
        ],
    )
}

// A second batch, with a rule whose condition does not hold.
fn noon(rt: &HostRuntime, day: &mut Day) -> anyhow::Result<()> {
    println!(rt; "Noon: a second batch; one rule's condition does not hold.")?;
    day.batch(
        rt,
        &[
            holds(1, Rule::Weather, 5),
            Match {
                event: 2,
                rule: Rule::Breakdown,
                rank: 9,
                holds: false,
            },
            holds(3, Rule::ShiftEnd, 1),
        ],
    )
}

// A fifth event opens.
fn evening(rt: &HostRuntime, day: &mut Day) -> anyhow::Result<()> {
    println!(rt; "Evening: a fifth event opens.")?;
    day.open_events(rt, 1)?;
    day.batch(
        rt,
        &[holds(4, Rule::Breakdown, 3), holds(3, Rule::Weather, 6)],
    )
}

// The day after: a batch, a row that is declined, and two midnights.
fn next_day(rt: &HostRuntime, day: &mut Day) -> anyhow::Result<()> {
    println!(rt; "Next morning: the batch goes on with the shifted numbers.")?;
    day.batch(
        rt,
        &[holds(3, Rule::Breakdown, 8), holds(4, Rule::ShiftEnd, 3)],
    )?;
    println!(rt; "A row for an event that has left is declined, and changes nothing.")?;
    day.batch(rt, &[holds(0, Rule::Weather, 9)])?;
    println!(rt; "Next midnight: three groups are asked for, and only two are held.")?;
    day.midnight(rt, 3)?;
    println!(rt; "The two that are held leave.")?;
    day.midnight(rt, 2)
}

// The day, its midnight, and the day after.
pub fn run(rt: &HostRuntime) -> anyhow::Result<()> {
    let mut day = Day::new(rt);
    morning(rt, &mut day)?;
    noon(rt, &mut day)?;
    evening(rt, &mut day)?;
    println!(rt; "Midnight: events 0, 1 and 2 are finished and leave as a prefix.")?;
    day.midnight(rt, 3)?;
    next_day(rt, &mut day)
}
