// What is answered, as text.
ghost use Rattle.std.specs.Prelude.{◌≡◌, ◌++◌, ◌==◌, [], IfOk, OnOk, codes, string_bytes, if◌then◌else◌};
ghost use Rattle.replay.specs.Texts.{group_text, open_text, emitted_text, Settled};

use crate::given::Stop;
use grouped::FINISHED;
use std::alloc::{AllocError, Global};
use std::fmt::Write;

// A line that is no command, or that stands where it may not.
pub fn malformed(heap: Global) -> Result<String, AllocError>
    ensures { IfOk result (λ answer. string_bytes answer ≡ codes "malformed") }
{
    String::from_str(heap, "malformed")
}

// An accumulator was made.
pub fn made(heap: Global) -> Result<String, AllocError>
    ensures { IfOk result (λ answer. string_bytes answer ≡ codes "made") }
{
    String::from_str(heap, "made")
}

// A call was taken; its output parts follow.
pub fn taken(heap: Global) -> Result<String, AllocError>
    ensures { IfOk result (λ answer. string_bytes answer ≡ codes "ok") }
{
    String::from_str(heap, "ok")
}

// What a call answers, or that it was declined.
pub fn settled(heap: Global, answer: Result<String, Stop>) -> Result<String, AllocError>
    ensures { Settled string_bytes answer result }
{
    match answer {
        Ok(text) => Ok(text),
        Err(Stop::Declined(why)) => format!(in heap; "declined {why}"),
        Err(Stop::OutOfMemory) => Err(AllocError),
    }
}

// What stands in front of a list's number `i`: a space, but for the first.
pub fn space(i: usize) -> &'static str
    ensures { result.now ≡ if i == 0 then [] else codes " " }
{
    if i == 0 { "" } else { " " }
}

// Writes an open group number.
fn write_group(text: &mut String, group: u32) -> Result<(), AllocError>
    ensures { OnOk result (string_bytes text.new ≡ string_bytes text.old ++ group_text group) }
{
    if group == FINISHED {
        text.push_str("finished")
    } else {
        write!(text, "{group}")
    }
}

// Writes a list of open group numbers.
fn write_open(text: &mut String, open: &[u32]) -> Result<(), AllocError>
    ensures { OnOk result (string_bytes text.new ≡ string_bytes text.old ++ open_text «open».now) }
{
    text.push_str("open=[")?;
    for (i, group) in open.iter().enumerate() {
        text.push_str(space(i))?;
        write_group(text, *group)?;
    }
    text.push_str("]")
}

// The list of open group numbers.
pub fn opened(heap: Global, open: &[u32]) -> Result<String, AllocError>
    ensures { IfOk result (λ answer. string_bytes answer ≡ open_text «open».now) }
{
    let mut text = String::new(heap);
    write_open(&mut text, open)?;
    Ok(text)
}

// An emission dropped so many groups, and these are open now; its output parts follow.
pub fn emitted(heap: Global, dropped: u32, open: &[u32]) -> Result<String, AllocError>
    ensures { IfOk result (λ answer. string_bytes answer ≡ emitted_text dropped «open».now) }
{
    let mut text = format!(in heap; "ok dropped={dropped} ")?;
    write_open(&mut text, open)?;
    Ok(text)
}
