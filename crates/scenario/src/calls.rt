// The calls of an accumulator.
ghost use Rattle.std.specs.Prelude.{◌≡◌, ◌∷◌, IsOk, false, codes};
ghost use Rattle.scenario.specs.declared.Reads.{Reads};
ghost use Rattle.scenario.specs.Calls.{Columned, Grouped, Rows, IsLeaving, Bare, Emitted, AsksRows, AsksGroups, Asks};
ghost use Rattle.scenario.specs.Fields.{texts_of};
ghost use Rattle.scenario.specs.Names.{call_name};
ghost use Rattle.scenario.specs.Plain.{every, IsPlain};
ghost use Rattle.scenario.specs.Reading.{Finds, Tells};
ghost use Rattle.scenario.specs.Words.{words as words_of};

use crate::alone::{SingleCall, read_single};
use crate::fields::Fields;
use crate::lists::{number, numbers};
use crate::marking::{Marks, read_filter, read_flags};
use crate::pieces::{Parts, read_keys, read_values};
use crate::rooms::{Room, read_room};
use crate::words::Words;
use crate::{Reads, Unread};
use std::alloc::Global;

// The columns of a call: a value column and the order columns.
#[derive(Drop)]
pub struct Columns {
    pub values: Parts,
    pub keys: Vec<Parts>,
}

// The rows of a call: its columns, a group index for each row, and the total number of groups.
#[derive(Drop)]
pub struct Batch {
    pub columns: Columns,
    pub groups: Vec<usize>,
    pub total: usize,
}

// How many groups an emission takes.
#[derive(Clone, Copy)]
pub enum Leaving {
    All,
    First(usize),
}

// A call with its arguments: of groups, or of an accumulator without them.
#[derive(Drop)]
pub enum Call {
    Update {
        batch: Batch,
        filter: Option<Marks>,
    },
    Merge {
        batch: Batch,
        flags: Marks,
    },
    Convert {
        columns: Columns,
        filter: Option<Marks>,
        room: Room,
    },
    Evaluate {
        leaving: Leaving,
        room: Room,
    },
    State {
        leaving: Leaving,
        room: Room,
    },
    Single(SingleCall),
}

// The columns of some fields.
pub(crate) fn read_columns(heap: Global, fields: &Fields, reads: Reads) -> Result<Columns, Unread>
    ensures { Finds result (λ columns. Columned reads (texts_of fields.now) columns) }
{
    let value = fields.values.ok_or(Unread::Malformed)?;
    let values = read_values(heap, value, reads)?;
    Ok(Columns {
        values,
        keys: read_keys(heap, &fields.keys, reads)?,
    })
}

// The group indices and the total number of groups of some fields.
fn read_groups(heap: Global, fields: &Fields) -> Result<(Vec<usize>, usize), Unread>
    ensures { Finds result (λ rows. Grouped (texts_of fields.now) rows.0.items rows.1) }
{
    let total = number(fields.total.ok_or(Unread::Malformed)?)?;
    let groups = numbers(heap, fields.groups.ok_or(Unread::Malformed)?)?;
    Ok((groups, total))
}

// The rows of some fields.
fn read_batch(heap: Global, fields: &Fields, reads: Reads) -> Result<Batch, Unread>
    ensures { Finds result (λ batch. Rows reads (texts_of fields.now) batch) }
{
    let (groups, total) = read_groups(heap, fields)?;
    Ok(Batch {
        columns: read_columns(heap, fields, reads)?,
        groups,
        total,
    })
}

// `update values=COLUMN key=COLUMN .. groups=[N ..] total=N [filter=MARKS]`
fn update(heap: Global, fields: &Fields, reads: Reads) -> Result<Call, Unread>
    ensures { Finds result (λ call. (call_name call ≡ codes "update") × AsksRows reads (texts_of fields.now) call) }
{
    if fields.flags.is_some() || fields.room.is_some() {
        return Err(Unread::Malformed);
    }
    let batch = read_batch(heap, fields, reads)?;
    Ok(Call::Update {
        batch,
        filter: read_filter(heap, fields.filter)?,
    })
}

// `merge values=COLUMN key=COLUMN .. groups=[N ..] total=N flags=MARKS`
fn merge(heap: Global, fields: &Fields, reads: Reads) -> Result<Call, Unread>
    ensures { Finds result (λ call. (call_name call ≡ codes "merge") × AsksRows reads (texts_of fields.now) call) }
{
    if fields.filter.is_some() || fields.room.is_some() {
        return Err(Unread::Malformed);
    }
    let batch = read_batch(heap, fields, reads)?;
    Ok(Call::Merge {
        batch,
        flags: read_flags(heap, fields.flags)?,
    })
}

// `convert values=COLUMN key=COLUMN .. [filter=MARKS] [room=ROOM]`
fn convert(heap: Global, fields: &Fields, reads: Reads) -> Result<Call, Unread>
    ensures { Finds result (λ call. (call_name call ≡ codes "convert") × AsksRows reads (texts_of fields.now) call) }
{
    if fields.has_groups() || fields.flags.is_some() {
        return Err(Unread::Malformed);
    }
    let room = read_room(fields.room)?;
    let columns = read_columns(heap, fields, reads)?;
    Ok(Call::Convert {
        columns,
        filter: read_filter(heap, fields.filter)?,
        room,
    })
}

// How many groups leave.
fn read_leaving(text: &str) -> Result<Leaving, Unread>
    ensures { Tells result (λ leaving. IsLeaving text.now leaving) }
{
    if text == "all" {
        return Ok(Leaving::All);
    }
    Ok(Leaving::First(number(text)?))
}

// The room of an emission, which has no other field.
pub(crate) fn emission(fields: &Fields) -> Result<Room, Unread>
    ensures { Tells result (λ room. Bare (texts_of fields.now) room) }
{
    if fields.has_columns() || fields.has_groups() || fields.has_marks() {
        return Err(Unread::Malformed);
    }
    read_room(fields.room)
}

// The groups that leave, and the room for them: `all|N [room=ROOM]`
fn read_emission(heap: Global, mut words: Words) -> Result<(Leaving, Room), Unread>
    ensures answer { Finds result (λ asked. Emitted (words_of words.entry.rest.now) asked.0 asked.1) }
    ensures plain { words_of words.entry.rest.now ≡ every false → IsOk result }
{
    let leaving = read_leaving(words.needed()?)?;
    Ok((leaving, emission(&Fields::of(heap, words)?)?))
}

// `evaluate all|N [room=ROOM]`
fn evaluate(heap: Global, words: Words) -> Result<Call, Unread>
    ensures answer { Finds result (λ call. (call_name call ≡ codes "evaluate") × ((a : Reads) → AsksGroups a (words_of words.entry.rest.now) call)) }
    ensures plain { words_of words.entry.rest.now ≡ every false → IsOk result }
{
    let (leaving, room) = read_emission(heap, words)?;
    Ok(Call::Evaluate { leaving, room })
}

// `state all|N [room=ROOM]`
fn state(heap: Global, words: Words) -> Result<Call, Unread>
    ensures answer { Finds result (λ call. (call_name call ≡ codes "state") × ((a : Reads) → AsksGroups a (words_of words.entry.rest.now) call)) }
    ensures plain { words_of words.entry.rest.now ≡ every false → IsOk result }
{
    let (leaving, room) = read_emission(heap, words)?;
    Ok(Call::State { leaving, room })
}

// A call of rows by its name and its fields.
fn read_rows(heap: Global, name: &str, fields: &Fields, reads: Reads) -> Result<Call, Unread>
    ensures { Finds result (λ call. (name.now ≡ call_name call) × AsksRows reads (texts_of fields.now) call) }
{
    match name {
        "update" => update(heap, fields, reads),
        "merge" => merge(heap, fields, reads),
        "convert" => convert(heap, fields, reads),
        _ => Err(Unread::Malformed),
    }
}

// A call of groups by its name and the words behind it.
fn read_grouped(heap: Global, name: &str, words: Words, reads: Reads) -> Result<Call, Unread>
    ensures answer { Finds result (λ call. (name.now ≡ call_name call) × AsksGroups reads (words_of words.entry.rest.now) call) }
    ensures plain { IsPlain false (name.now ∷ words_of words.entry.rest.now) → IsOk result }
{
    match name {
        "evaluate" => evaluate(heap, words),
        "state" => state(heap, words),
        _ => read_rows(heap, name, &Fields::of(heap, words)?, reads),
    }
}

// A call by its name and the words behind it.
pub(crate) fn read_call(
    heap: Global,
    name: &str,
    words: Words,
    reads: Reads,
) -> Result<Call, Unread>
    ensures answer { Finds result (λ call. (name.now ≡ call_name call) × Asks reads (words_of words.entry.rest.now) call) }
    ensures plain { IsPlain reads.alone (name.now ∷ words_of words.entry.rest.now) → IsOk result }
{
    if reads.alone {
        return Ok(Call::Single(read_single(heap, name, words, reads)?));
    }
    read_grouped(heap, name, words, reads)
}
