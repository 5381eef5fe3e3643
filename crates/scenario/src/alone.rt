// The calls of an accumulator without groups.
ghost use Rattle.std.specs.Prelude.{◌≡◌, [], ◌∷◌, IsOk, true, codes};
ghost use Rattle.scenario.specs.declared.Reads.{Reads};
ghost use Rattle.scenario.specs.Calls.{AsksAlone};
ghost use Rattle.scenario.specs.Fields.{Texts, texts_of, Gathers};
ghost use Rattle.scenario.specs.Names.{single_name};
ghost use Rattle.scenario.specs.Plain.{Fieldless, IsPlain};
ghost use Rattle.scenario.specs.Reading.{Finds, Tells};
ghost use Rattle.scenario.specs.Words.{words as words_of};

use crate::calls::{Columns, emission, read_columns};
use crate::fields::Fields;
use crate::marking::{Marks, read_flags};
use crate::rooms::Room;
use crate::words::Words;
use crate::{Reads, Unread};
use std::alloc::Global;

// A call with its arguments.
#[derive(Drop)]
pub enum SingleCall {
    Update { columns: Columns },
    Merge { columns: Columns, flags: Marks },
    Evaluate { room: Room },
    State { room: Room },
}

// `update values=COLUMN key=COLUMN ..`
fn update(heap: Global, fields: &Fields, reads: Reads) -> Result<SingleCall, Unread>
    ensures { Finds result (λ call. (single_name call ≡ codes "update") × AsksAlone reads (texts_of fields.now) call) }
{
    if fields.has_groups() || fields.has_marks() || fields.room.is_some() {
        return Err(Unread::Malformed);
    }
    Ok(SingleCall::Update {
        columns: read_columns(heap, fields, reads)?,
    })
}

// `merge values=COLUMN key=COLUMN .. flags=MARKS`
fn merge(heap: Global, fields: &Fields, reads: Reads) -> Result<SingleCall, Unread>
    ensures { Finds result (λ call. (single_name call ≡ codes "merge") × AsksAlone reads (texts_of fields.now) call) }
{
    if fields.has_groups() || fields.filter.is_some() || fields.room.is_some() {
        return Err(Unread::Malformed);
    }
    let columns = read_columns(heap, fields, reads)?;
    Ok(SingleCall::Merge {
        columns,
        flags: read_flags(heap, fields.flags)?,
    })
}

// `evaluate [room=ROOM]`
fn evaluate(fields: &Fields) -> Result<SingleCall, Unread>
    ensures { Tells result (λ call. (single_name call ≡ codes "evaluate") × ((a : Reads) → AsksAlone a (texts_of fields.now) call)) }
{
    Ok(SingleCall::Evaluate {
        room: emission(fields)?,
    })
}

// `state [room=ROOM]`
fn state(fields: &Fields) -> Result<SingleCall, Unread>
    ensures { Tells result (λ call. (single_name call ≡ codes "state") × ((a : Reads) → AsksAlone a (texts_of fields.now) call)) }
{
    Ok(SingleCall::State {
        room: emission(fields)?,
    })
}

// A call by its name and its fields.
fn read_named(heap: Global, name: &str, fields: &Fields, reads: Reads) -> Result<SingleCall, Unread>
    ensures answer { Finds result (λ call. (name.now ≡ single_name call) × AsksAlone reads (texts_of fields.now) call) }
    ensures plain { Fieldless fields.now → IsPlain true (name.now ∷ []) → IsOk result }
{
    match name {
        "update" => update(heap, fields, reads),
        "merge" => merge(heap, fields, reads),
        "evaluate" => evaluate(fields),
        "state" => state(fields),
        _ => Err(Unread::Malformed),
    }
}

// A call by its name and the words behind it.
pub(crate) fn read_single(
    heap: Global,
    name: &str,
    words: Words,
    reads: Reads,
) -> Result<SingleCall, Unread>
    ensures answer { Finds result (λ call. (name.now ≡ single_name call) × ((texts : Texts) × Gathers (words_of words.entry.rest.now) texts × AsksAlone reads texts call)) }
    ensures plain { IsPlain true (name.now ∷ words_of words.entry.rest.now) → IsOk result }
{
    read_named(heap, name, &Fields::of(heap, words)?, reads)
}
