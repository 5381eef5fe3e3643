// The commands of a scenario.
ghost use Rattle.std.specs.Prelude.{◌≡◌, ◌∷◌, List, ℕ, IsOk, Some, codes};
ghost use Rattle.scenario.specs.declared.Reads.{Reads};
ghost use Rattle.scenario.specs.declared.makings.Making.{Making};
ghost use Rattle.scenario.specs.Accumulators.{Makes, Opens, Proper};
ghost use Rattle.scenario.specs.Names.{command_name};
ghost use Rattle.scenario.specs.Plain.{IsPlain};
ghost use Rattle.scenario.specs.Reading.{Finds};
ghost use Rattle.scenario.specs.Words.{words as words_of};

use crate::calls::{Call, read_call};
use crate::lists::numbers;
use crate::makings::{Making, read_making};
use crate::words::Words;
use crate::{Reads, Unread};
use std::alloc::Global;

// What a line asks for.
#[derive(Drop)]
pub enum Command {
    Make(Making),
    Open(Vec<u32>),
    Call(Call),
}

// `open [N ..]`
fn opened(heap: Global, words: &mut Words) -> Result<Vec<u32>, Unread>
    ensures { Finds result (λ list. Opens list.items (words_of words.old.rest.now)) }
{
    let list = numbers(heap, words.needed()?)?;
    words.ended()?;
    Ok(list)
}

// The command of a line, where the accumulator, if there is one, reads these kinds.
pub fn read(heap: Global, line: &str, reads: Option<Reads>) -> Result<Command, Unread>
    ensures read { Finds result (λ command. (more : List (List ℕ)) × (words_of line.now ≡ command_name command ∷ more) × Proper reads command more) }
    ensures makes { (making : Making) → (more : List (List ℕ)) → words_of line.now ≡ codes "make" ∷ more → Makes making more → IsOk result }
    ensures emits { (a : Reads) → reads ≡ Some a → IsPlain a.alone (words_of line.now) → IsOk result }
{
    let mut words = Words::of(line);
    match words.needed()? {
        "make" => Ok(Command::Make(read_making(&mut words)?)),
        "open" => Ok(Command::Open(opened(heap, &mut words)?)),
        name => {
            let reads = reads.ok_or(Unread::Malformed)?;
            Ok(Command::Call(read_call(heap, name, words, reads)?))
        }
    }
}
