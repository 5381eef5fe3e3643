// A midnight of an event and of a crane's moves: the event leaves, and the moves stay.
use crate::hits::Hit;
use crate::moves::{Move, Moves};
use crate::pair::Pair;
use crate::rules::Rule;

// The crane moves.
fn go(rt: &HostRuntime, moves: &mut Moves, steps: &[Move]) -> anyhow::Result<()> {
    for step in steps {
        let Move { bay, hour } = *step;
        println!(rt; "  the crane moves to bay {bay} at hour {hour}")?;
    }
    moves.take(rt.alloc(), steps)
}

// Shows whether the event is held, and where the crane is.
fn show(rt: &HostRuntime, pair: &Pair, moves: &Moves) -> anyhow::Result<()> {
    if pair.is_held() {
        println!(rt; "  the event is held by the grouped LAST")?;
    } else {
        println!(rt; "  the event is not held by the grouped LAST")?;
    }
    match moves.bay(rt.alloc())? {
        Some(bay) => println!(rt; "  the crane's last move is to bay {bay}")?,
        None => println!(rt; "  the crane has not moved")?,
    }
    Ok(())
}

// An evening, its midnight, and the next morning.
pub fn run(rt: &HostRuntime) -> anyhow::Result<()> {
    println!(rt;
        "Moves: the crane's moves sit in an ungrouped LAST of their own, which midnight does not empty."
    )?;
    let mut pair = Pair::new();
    let mut moves = Moves::new();
    let hit = Hit {
        rule: Rule::Breakdown,
        rank: 7,
    };
    pair.take(rt.alloc(), &[hit])?;
    go(
        rt,
        &mut moves,
        &[Move { bay: 4, hour: 20 }, Move { bay: 9, hour: 23 }],
    )?;
    println!(rt; "Before midnight:")?;
    show(rt, &pair, &moves)?;
    pair.settle(rt.alloc())?;
    println!(rt; "After midnight:")?;
    show(rt, &pair, &moves)?;
    println!(rt; "Next morning:")?;
    go(rt, &mut moves, &[Move { bay: 2, hour: 30 }])?;
    show(rt, &pair, &moves)
}
