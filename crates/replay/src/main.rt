// Replays a scenario: reads commands from standard input, one a line, and writes an answer for each. Then it replays each list of
// recorded scenarios that its arguments name, and compares the answers with the recorded ones.
#![tactic(auto)]

mod alone;
mod answers;
mod buffers;
mod calls;
mod emissions;
mod given;
mod playing;
mod recorded;
mod stage;

use playing::Replay;
use recorded::replay_list;
use std::io::{BufRead, BufReader, BufWriter, Write};
use std::{env, io};

// Answers one line, if it gets an answer.
fn answer<W: Write>(replay: &mut Replay, line: &[u8], out: &mut W) -> io::Result<()> {
    match replay.line(line)? {
        Some(answer) => writeln!(out, "{answer}"),
        None => Ok(()),
    }
}

// Replays the scenario on standard input to its end.
fn run(rt: &HostRuntime) -> io::Result<()> {
    let heap = rt.alloc();
    let mut replay = Replay::new(heap);
    let mut out = BufWriter::new(heap, io::writer(rt))?;
    for line in BufReader::new(heap, rt.reader())?.split(heap, b'\n') {
        answer(&mut replay, &line?, &mut out)?;
    }
    out.flush()
}

// Replays the scenario, and then the lists.
fn main(rt: HostRuntime) -> anyhow::Result<()> {
    run(&rt)?;
    for name in env::args(&rt)?.skip(1) {
        replay_list(&rt, &name)?;
    }
    Ok(())
}
