// Recorded answers, which the answers to their scenarios are compared with.
use crate::playing::Replay;
use anyhow::anyhow;
use std::alloc::{AllocError, Global};
use std::fs;

// The recorded answers of a list: its lines but for remarks.
fn recorded(heap: Global, text: &str) -> Result<Vec<&str>, AllocError> {
    text.lines()
        .filter(|line| !line.starts_with('#'))
        .collect(heap)
}

// The answer that is asked for: the last text of a line, which shows two of them at a named difference.
fn asked(line: &str) -> &str {
    line.rsplit_once(" ## ").map_or(line, |(_, last)| last)
}

// Whether a line shows a named difference.
fn is_named(line: &str) -> bool {
    line.contains(" ## ")
}

// Replays scenarios; the answers have to be those that are asked for, one after the other.
fn compare(heap: Global, scenarios: &str, answers: &[&str]) -> anyhow::Result<()> {
    let mut replay = Replay::new(heap);
    let mut left = answers.iter();
    for line in scenarios.lines() {
        let Some(answer) = replay.line(line.as_bytes())? else {
            continue;
        };
        match left.next() {
            Some(text) if answer.as_str() == asked(text) => {}
            Some(text) => return Err(anyhow!("{line}\nis answered {answer}\nand not {text}")),
            None => return Err(anyhow!("{line}\nhas no recorded answer")),
        }
    }
    match left.next() {
        Some(text) => Err(anyhow!("{text}\nis recorded for no line")),
        None => Ok(()),
    }
}

// Replays a list by its name.
pub fn replay_list(rt: &HostRuntime, name: &str) -> anyhow::Result<()> {
    let heap = rt.alloc();
    let scenarios = fs::read_to_string(rt, format!(in heap; "{name}.scenarios")?)?;
    let text = fs::read_to_string(rt, format!(in heap; "{name}.answers")?)?;
    let answers = recorded(heap, &text)?;
    compare(heap, &scenarios, &answers)?;
    let count = answers.len();
    let named = answers.iter().filter(|line| is_named(line)).count();
    println!(rt; "{name}: {count} answers as recorded, {named} of them at a named difference")?;
    Ok(())
}
