// How large the output parts of a call are.
ghost use Rattle.std.specs.Prelude.{◌≡◌, ◌≢◌, ◌∷◌, codes, IsTrue};
ghost use Rattle.std.specs.Option.{option_copied};
ghost use Rattle.scenario.specs.declared.rooms.OutputColumn.{OutputColumn};
ghost use Rattle.scenario.specs.declared.rooms.Buffer.{Buffer};
ghost use Rattle.scenario.specs.Names.{column_name, buffer_name, has_buffer, part_name};
ghost use Rattle.scenario.specs.Reading.{Told, Tells};
ghost use Rattle.scenario.specs.Rooms.{RoomFor, Sized};

use crate::Unread;
use crate::lists::number;

// A column that a call writes.
#[derive(Clone, Copy, PartialEq, Eq)]
pub enum OutputColumn {
    Values,
    FirstKey,
    SecondKey,
    ThirdKey,
    Flags,
}

// One of a column's buffers.
#[derive(Clone, Copy, PartialEq, Eq)]
pub enum Buffer {
    Validity,
    Offsets,
    Data,
    Bits,
}

// An output part: one buffer of one column.
#[derive(Clone, Copy, PartialEq, Eq)]
pub struct OutputPart {
    pub column: OutputColumn,
    pub buffer: Buffer,
}

// How large the output parts are: as large as is needed, so much larger each, or one of them short by one.
#[derive(Clone, Copy)]
pub enum Room {
    Exact,
    More(usize),
    Short(OutputPart),
}

impl Room {
    // The size of a part that needs so much.
    pub fn size(&self, part: OutputPart, needed: usize) -> usize
        ensures { Sized self.now part needed result }
    {
        match self {
            Room::Exact => needed,
            Room::More(more) => needed.saturating_add(*more),
            Room::Short(short) if *short == part => needed.saturating_sub(1),
            Room::Short(_) => needed,
        }
    }
}

impl OutputColumn {
    // The column's name.
    pub fn name(self) -> &'static str
        ensures { result.now ≡ column_name self }
    {
        match self {
            OutputColumn::Values => "values",
            OutputColumn::FirstKey => "key1",
            OutputColumn::SecondKey => "key2",
            OutputColumn::ThirdKey => "key3",
            OutputColumn::Flags => "flags",
        }
    }
}

// The column of a name.
fn column_named(name: &str) -> Result<OutputColumn, Unread>
    ensures { Told result (λ column. name.now ≡ column_name column) ((column : OutputColumn) → name.now ≢ column_name column) }
{
    match name {
        "values" => Ok(OutputColumn::Values),
        "key1" => Ok(OutputColumn::FirstKey),
        "key2" => Ok(OutputColumn::SecondKey),
        "key3" => Ok(OutputColumn::ThirdKey),
        "flags" => Ok(OutputColumn::Flags),
        _ => Err(Unread::Malformed),
    }
}

// The buffer of a name, in a column that has such a one.
fn buffer_named(column: OutputColumn, name: &str) -> Result<Buffer, Unread>
    ensures { Told result (λ buffer. (name.now ≡ buffer_name buffer) × IsTrue (has_buffer column buffer)) ((buffer : Buffer) → IsTrue (has_buffer column buffer) → name.now ≢ buffer_name buffer) }
{
    match (column, name) {
        (_, "validity") => Ok(Buffer::Validity),
        (OutputColumn::Flags, "bits") => Ok(Buffer::Bits),
        (OutputColumn::Flags, _) => Err(Unread::Malformed),
        (_, "offsets") => Ok(Buffer::Offsets),
        (_, "data") => Ok(Buffer::Data),
        _ => Err(Unread::Malformed),
    }
}

// The output part of a name.
fn part_named(name: &str) -> Result<OutputPart, Unread>
    ensures { Tells result (λ part. (name.now ≡ part_name part) × IsTrue (has_buffer part.column part.buffer)) }
{
    let (front, back) = name.split_once('.').ok_or(Unread::Malformed)?;
    let column = column_named(front)?;
    Ok(OutputPart {
        column,
        buffer: buffer_named(column, back)?,
    })
}

// The room that is written, or as much as is needed where none is.
pub(crate) fn read_room(text: Option<&str>) -> Result<Room, Unread>
    ensures { Tells result (λ room. RoomFor (option_copied text.entry) room) }
{
    let Some(text) = text else {
        return Ok(Room::Exact);
    };
    if let Some(more) = text.strip_prefix('+') {
        return Ok(Room::More(number(more)?));
    }
    let name = text.strip_prefix('-').ok_or(Unread::Malformed)?;
    Ok(Room::Short(part_named(name)?))
}
