// The output parts of a column.
ghost use Rattle.std.specs.Prelude.{◌≡◌, ◌++◌, IfOk, OnOk, string_bytes};
ghost use Rattle.layout.specs.Written.{parts_seen, flag_parts_seen};
ghost use Rattle.replay.specs.Fresh.{untouched_byte, Fresh, FreshOffsets, FreshBuffers, FreshFlags, parts_held, flags_held};
ghost use Rattle.replay.specs.Texts.{bytes_text, offsets_text, offsets_part, buffers_text, flags_text};

use crate::answers::space;
use column::Kind;
use layout::{FlagOutput, Output, Space};
use scenario::{Buffer, OutputColumn, OutputPart, Room};
use std::alloc::{AllocError, Global};
use std::fmt::Write;

// What every output byte is before a call.
const BYTE: u8 = 0xaa;

// What every output offset is before a call.
const OFFSET: u32 = 0xaaaa_aaaa;

// The buffers of a column; one of another kind than byte strings has no offsets.
#[derive(Drop)]
pub struct Buffers {
    column: OutputColumn,
    kind: Kind,
    validity: Vec<u8>,
    offsets: Vec<u32>,
    data: Vec<u8>,
}

// The buffers of a column of flags.
#[derive(Drop)]
pub struct FlagBuffers {
    validity: Vec<u8>,
    bits: Vec<u8>,
}

// A part of bytes that needs so much, before a call.
fn bytes(heap: Global, room: Room, part: OutputPart, needed: usize) -> Result<Vec<u8>, AllocError>
    ensures { IfOk result (λ bytes. Fresh room part needed untouched_byte bytes.items) }
{
    vec![in heap; BYTE; room.size(part, needed)]
}

// The offsets of a column that needs so many, before a call; only one of byte strings has any.
fn offsets(
    heap: Global,
    room: Room,
    part: OutputPart,
    kind: Kind,
    needed: usize,
) -> Result<Vec<u32>, AllocError>
    ensures { IfOk result (λ offsets. FreshOffsets kind room part needed offsets.items) }
{
    match kind {
        Kind::Bytes => vec![in heap; OFFSET; room.size(part, needed)],
        Kind::Number | Kind::Record => Ok(Vec::new(heap)),
    }
}

// Writes the bytes of an output part.
fn write_bytes(text: &mut String, bytes: &[u8]) -> Result<(), AllocError>
    ensures { OnOk result (string_bytes text.new ≡ string_bytes text.old ++ bytes_text bytes.now) }
{
    text.push('x')?;
    for byte in bytes {
        write!(text, "{byte:02x}")?;
    }
    Ok(())
}

// Writes the offsets of an output part.
fn write_offsets(text: &mut String, offsets: &[u32]) -> Result<(), AllocError>
    ensures { OnOk result (string_bytes text.new ≡ string_bytes text.old ++ offsets_text offsets.now) }
{
    text.push('[')?;
    for (i, offset) in offsets.iter().enumerate() {
        text.push_str(space(i))?;
        write!(text, "{offset}")?;
    }
    text.push(']')
}

impl Buffers {
    // The buffers of a column that needs some space, as large as the room says.
    pub fn new(
        heap: Global,
        column: OutputColumn,
        kind: Kind,
        space: Space,
        room: Room,
    ) -> Result<Buffers, AllocError>
        ensures { IfOk result (λ buffers. FreshBuffers column kind space room buffers) }
    {
        let part = |buffer| OutputPart { column, buffer };
        Ok(Buffers {
            column,
            kind,
            validity: bytes(heap, room, part(Buffer::Validity), space.validity)?,
            offsets: offsets(heap, room, part(Buffer::Offsets), kind, space.offsets)?,
            data: bytes(heap, room, part(Buffer::Data), space.data)?,
        })
    }

    // Where a call writes to.
    pub fn output(&mut self) -> Output<'_>
        ensures { parts_seen result ≡ parts_held self.old }
    {
        Output {
            validity: &mut self.validity,
            offsets: &mut self.offsets,
            data: &mut self.data,
        }
    }

    // Writes the offsets, which only a column of byte strings has.
    fn write_offsets(&self, text: &mut String) -> Result<(), AllocError>
        ensures { OnOk result (string_bytes text.new ≡ string_bytes text.old ++ offsets_part self.now.kind self.now.column self.now.offsets.items) }
    {
        match self.kind {
            Kind::Bytes => {
                write!(text, " {}.offsets=", self.column.name())?;
                write_offsets(text, &self.offsets)
            }
            Kind::Number | Kind::Record => Ok(()),
        }
    }

    // Writes the output parts.
    pub fn write(&self, text: &mut String) -> Result<(), AllocError>
        ensures { OnOk result (string_bytes text.new ≡ string_bytes text.old ++ buffers_text self.now) }
    {
        let name = self.column.name();
        write!(text, " {name}.validity=")?;
        write_bytes(text, &self.validity)?;
        self.write_offsets(text)?;
        write!(text, " {name}.data=")?;
        write_bytes(text, &self.data)
    }
}

impl FlagBuffers {
    // The buffers of so many flags, as large as the room says.
    pub fn new(heap: Global, rows: usize, room: Room) -> Result<FlagBuffers, AllocError>
        ensures { IfOk result (λ buffers. FreshFlags rows room buffers) }
    {
        let column = OutputColumn::Flags;
        let part = |buffer| OutputPart { column, buffer };
        let needed = rows.div_ceil(8);
        Ok(FlagBuffers {
            validity: bytes(heap, room, part(Buffer::Validity), needed)?,
            bits: bytes(heap, room, part(Buffer::Bits), needed)?,
        })
    }

    // Where a call writes to.
    pub fn output(&mut self) -> FlagOutput<'_>
        ensures { flag_parts_seen result ≡ flags_held self.old }
    {
        FlagOutput {
            validity: &mut self.validity,
            bits: &mut self.bits,
        }
    }

    // Writes the output parts.
    pub fn write(&self, text: &mut String) -> Result<(), AllocError>
        ensures { OnOk result (string_bytes text.new ≡ string_bytes text.old ++ flags_text self.now) }
    {
        text.push_str(" flags.bits=")?;
        write_bytes(text, &self.bits)?;
        text.push_str(" flags.validity=")?;
        write_bytes(text, &self.validity)
    }
}
