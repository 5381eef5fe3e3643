// Two rules match one event at equal rank: where a grouped and an ungrouped LAST part, and what the queue becomes.
use crate::hits::Hit;
use crate::pair::Pair;
use crate::picks::{Picks, crane};
use crate::rules::Rule;
use crate::tops::Tops;

// How many containers wait.
const WAITING: u32 = 5;

// The two matches, of equal rank.
const BREAKDOWN: Hit = Hit {
    rule: Rule::Breakdown,
    rank: 7,
};

const SHIFT_END: Hit = Hit {
    rule: Rule::ShiftEnd,
    rank: 7,
};

// Gives the batches to a new pair, and shows their rows.
fn feed(rt: &HostRuntime, batches: &[&[Hit]]) -> anyhow::Result<Pair> {
    let mut pair = Pair::new();
    for (batch, hits) in batches.iter().enumerate() {
        for hit in hits.iter() {
            let Hit { rule, rank } = *hit;
            println!(rt; "  batch {batch}: {rule} matches the event with rank {rank}")?;
        }
        pair.take(rt.alloc(), hits)?;
    }
    Ok(pair)
}

// Shows the top rows of the deciding batch: whether the pair must hold the same.
fn foretell(rt: &HostRuntime, batches: &[&[Hit]]) -> anyhow::Result<bool> {
    let Some(tops) = Tops::of(batches) else {
        println!(rt; "  no row was admitted, so both LASTs must hold the same")?;
        return Ok(true);
    };
    let Tops { batch, first, last } = tops;
    let (first, last) = (first.rule, last.rule);
    println!(rt; "  batch {batch} decides: its first top row is {first}, and its last is {last}")?;
    let same = tops.agree();
    if same {
        println!(rt; "  they agree in value and key, so both LASTs must hold the same")?;
    } else {
        println!(rt; "  they do not agree in value and key, so the two LASTs must part")?;
    }
    Ok(same)
}

// Asks the pair whether both hold the same, and compares that with what must be.
fn ask(rt: &HostRuntime, pair: &Pair, foretold: bool) -> anyhow::Result<()> {
    let same = pair.hold_same();
    let answer = if same { "yes" } else { "no" };
    println!(rt; "  asked whether they hold the same, they answer {answer}")?;
    if same == foretold {
        println!(rt; "  that is what the theorem says of these batches")?;
    } else {
        println!(rt; "  that is not what the theorem says of these batches")?;
    }
    Ok(())
}

// Shows the picks, the cranes that they release, and the queue.
fn release(rt: &HostRuntime, picks: Picks) -> anyhow::Result<()> {
    let Picks { grouped, ungrouped } = picks;
    let (mine, theirs) = (crane(grouped), crane(ungrouped));
    println!(rt; "  the grouped LAST keeps {grouped}, which releases crane {mine}")?;
    println!(rt; "  the ungrouped LAST keeps {ungrouped}, which releases crane {theirs}")?;
    let cranes = picks.cranes();
    let waiting = WAITING.saturating_sub(cranes);
    let right = WAITING - 1;
    println!(rt;
        "  cranes released for one event: {cranes}; of {WAITING} containers {waiting} still wait, where {right} should"
    )?;
    Ok(())
}

// Some batches for both LASTs, up to the midnight at which the event is settled.
fn settle(rt: &HostRuntime, batches: &[&[Hit]]) -> anyhow::Result<()> {
    let mut pair = feed(rt, batches)?;
    let foretold = foretell(rt, batches)?;
    ask(rt, &pair, foretold)?;
    let picks = pair.settle(rt.alloc())?;
    release(rt, picks)
}

// The tie in one batch, and the same rows in two.
pub fn run(rt: &HostRuntime) -> anyhow::Result<()> {
    println!(rt;
        "Ties: a breakdown and a shift end match one event at equal rank. A grouped and an ungrouped LAST, made alike, get the same batches."
    )?;
    println!(rt;
        "Each pick releases a crane, and each crane released takes a container off the queue."
    )?;
    println!(rt; "Both rows in one batch:")?;
    settle(rt, &[&[BREAKDOWN, SHIFT_END]])?;
    println!(rt; "The same rows cut into two batches:")?;
    settle(rt, &[&[BREAKDOWN], &[SHIFT_END]])
}
