// A scenario that is being replayed.
ghost use Rattle.std.specs.Prelude.{◌≡◌, [], IfOk, codes, string_bytes};
ghost use Rattle.std.specs.Option.{option_map};
ghost use Rattle.scenario.specs.declared.commands.Command.TheVariants.{Make};
ghost use Rattle.replay.specs.Playing.{bare, is_blank, is_silent, reads, Done, Played, Answered};

use crate::answers::{made, malformed, opened};
use crate::stage::Stage;
use scenario::{Call, Command, Making, Reads, Unread, read};
use std::alloc::{AllocError, Global};

// The accumulator, once one is made, and the list of open group numbers.
#[derive(Drop)]
pub struct Replay {
    heap: Global,
    stage: Option<Stage>,
    open: Vec<u32>,
}

// A line without the carriage return that may end it.
fn bare(line: &[u8]) -> &[u8]
    ensures { result.now ≡ bare line.now }
{
    match line {
        [front @ .., b'\r'] => front,
        _ => line,
    }
}

// Whether a line is nothing but spaces.
fn is_blank(line: &[u8]) -> bool
    ensures { result ≡ is_blank line.now }
{
    line.iter().all(|byte| *byte == b' ')
}

// Whether a line is blank or a comment.
fn is_silent(line: &[u8]) -> bool
    ensures { result ≡ is_silent line.now }
{
    match line {
        [b'#', ..] => true,
        _ => is_blank(line),
    }
}

impl Replay {
    // No accumulator and no open group.
    pub fn new(heap: Global) -> Replay
        ensures stage { result.stage ≡ None }
        ensures groups { result.«open».items ≡ [] }
    {
        Replay {
            heap,
            stage: None,
            open: Vec::new(heap),
        }
    }

    // Answers a line; a blank one and a comment get no answer.
    pub fn line(&mut self, line: &[u8]) -> Result<Option<String>, AllocError>
        ensures { IfOk result (λ answer. Answered self.old self.new (bare line.now) (option_map string_bytes answer)) }
    {
        let line = bare(line);
        if is_silent(line) {
            return Ok(None);
        }
        Ok(Some(self.answer(line)?))
    }

    // Answers a line that is no text, or a line of text.
    fn answer(&mut self, line: &[u8]) -> Result<String, AllocError>
        ensures { IfOk result (λ answer. Played self.old self.new line.now (string_bytes answer)) }
    {
        match str::from_utf8(line) {
            Ok(text) => self.text(text),
            Err(_) => malformed(self.heap),
        }
    }

    // Answers a line of text that is a command, or malformed.
    fn text(&mut self, text: &str) -> Result<String, AllocError>
        ensures { IfOk result (λ answer. Played self.old self.new text.now (string_bytes answer)) }
    {
        match read(self.heap, text, self.reads()) {
            Ok(command) => self.command(command),
            Err(Unread::Malformed) => malformed(self.heap),
            Err(Unread::OutOfMemory) => Err(AllocError),
        }
    }

    // What the accumulator reads, once one is made.
    fn reads(&self) -> Option<Reads>
        ensures { result ≡ reads self.now }
    {
        Some(self.stage.as_ref()?.reads())
    }

    // Answers a command.
    fn command(&mut self, command: Command) -> Result<String, AllocError>
        ensures { IfOk result (λ answer. Done command self.old self.new (string_bytes answer)) }
    {
        match command {
            Command::Make(making) => self.make(&making),
            Command::Open(open) => {
                self.open = open;
                opened(self.heap, &self.open)
            }
            Command::Call(call) => self.call(&call),
        }
    }

    // Makes an accumulator, with no open group.
    fn make(&mut self, making: &Making) -> Result<String, AllocError>
        ensures { IfOk result (λ answer. Done (Make making.now) self.old self.new (string_bytes answer)) }
    {
        self.stage = Some(Stage::new(self.heap, making)?);
        self.open.clear();
        made(self.heap)
    }

    // Hands a call to the accumulator.
    fn call(&mut self, call: &Call) -> Result<String, AllocError>
        ensures { reads self.new ≡ reads self.old }
    {
        match &mut self.stage {
            None => malformed(self.heap),
            Some(stage) => stage.call(self.heap, call, &mut self.open),
        }
    }
}
