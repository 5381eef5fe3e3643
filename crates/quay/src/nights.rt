// A night of a board: its state is saved at midnight and merged into a new board in the morning, while a twin of it stays up.
use crate::board::Board;
use crate::boards::Boards;
use crate::claims::Claim;
use crate::saved::Saved;

// A claim at a time that stands in the log.
const fn at<'a>(event: usize, label: &'a str, time: &'a str) -> Claim<'a> {
    Claim {
        event,
        label,
        time: Some(time),
    }
}

// Four events open, and berths and shifts claim three of them.
fn morning(rt: &HostRuntime, boards: &mut Boards) -> anyhow::Result<()> {
    println!(rt;
        "Labels: a board keeps for each event the berth or shift that claimed it first, by the times of the log as text."
    )?;
    println!(rt; "A twin of the board takes the same claims.")?;
    boards.open_events(rt, 4)?;
    boards.claim(
        rt,
        &[
            at(0, "berth 12", "06:15:30"),
            at(0, "berth 1", "06:15"),
            at(1, "day shift", "06:00"),
            at(1, "night shift", "05:50"),
            Claim {
                event: 3,
                label: "berth 4",
                time: None,
            },
        ],
    )
}

// A label that is too long, and a second batch.
fn noon(rt: &HostRuntime, boards: &mut Boards) -> anyhow::Result<()> {
    println!(rt; "A label of more than 32 bytes is declined, and changes nothing.")?;
    boards.claim(
        rt,
        &[at(2, "berth behind the northern breakwater", "11:20")],
    )?;
    println!(rt; "Noon: a claim with a time comes before one without.")?;
    boards.claim(rt, &[at(3, "berth 7", "12:40")])
}

// Shows a saved state, row by row.
fn show(rt: &HostRuntime, saved: &Saved) -> anyhow::Result<()> {
    for row in 0..saved.events.held() {
        if saved.is_set(row) {
            let label = saved.labels.text(row).unwrap_or("nobody");
            let time = saved.times.text(row).unwrap_or("no time");
            println!(rt; "  row {row}: {label}, {time}")?;
        } else {
            println!(rt; "  row {row}: unset")?;
        }
    }
    Ok(())
}

// The board is saved, and a new one takes the state in.
fn night(rt: &HostRuntime, boards: &mut Boards) -> anyhow::Result<()> {
    println!(rt; "Midnight: the state of the board is saved.")?;
    let saved = boards.board.save(rt.alloc())?;
    show(rt, &saved)?;
    println!(rt; "Next morning: a new board, before it takes the saved state in.")?;
    boards.board = Board::new(rt.alloc());
    boards.compare(rt)?;
    println!(rt; "The saved state is merged.")?;
    boards.board.resume(&saved)?;
    boards.compare(rt)
}

// The day after: a tie with a saved time, a claim of the event that was unset, and the end of both boards.
fn next_day(rt: &HostRuntime, boards: &mut Boards) -> anyhow::Result<()> {
    println!(rt; "Both go on: a claim that ties with a saved one comes too late.")?;
    boards.claim(rt, &[at(0, "berth 3", "06:15"), at(2, "berth 2", "06:05")])?;
    boards.compare(rt)?;
    println!(rt; "Next midnight: all events leave.")?;
    boards.settle(rt)
}

// A day of a board, its night, and the day after.
pub fn run(rt: &HostRuntime) -> anyhow::Result<()> {
    let mut boards = Boards::new(rt);
    morning(rt, &mut boards)?;
    noon(rt, &mut boards)?;
    night(rt, &mut boards)?;
    next_day(rt, &mut boards)
}
