//! Emission: cells written to the caller's buffers in Arrow's layout.
#![tactic(auto)]

ghost use Rattle.std.specs.Prelude.{◌≡◌};
ghost use Rattle.layout.specs.Written.{parts_seen, roomy};

mod bits;
mod cells;
mod display;
mod flags;
mod measures;
mod numbers;
mod records;
mod short;
mod shortening;
mod strings;

pub use cells::CellSource;
pub use flags::FlagSource;
pub use short::ShortBytes;

/// The caller's buffers for one column.
#[derive(Drop)]
pub struct Output<'a> {
    /// A bit for each row: 1 where it is not null.
    pub validity: &'a mut [u8],
    /// Where each byte string begins and the last one ends; nothing is written here for the other kinds.
    pub offsets: &'a mut [u32],
    /// The bytes of the cells.
    pub data: &'a mut [u8],
}

/// The caller's buffers for up to three key columns, in their order.
#[derive(Drop)]
pub struct KeyOutputs<'a> {
    pub first: Output<'a>,
    pub second: Output<'a>,
    pub third: Output<'a>,
}

/// The caller's buffers for one column of truth values.
#[derive(Drop)]
pub struct FlagOutput<'a> {
    /// A bit for each row: 1 where it is not null.
    pub validity: &'a mut [u8],
    /// A bit for each row: its truth value, 0 where it is null.
    pub bits: &'a mut [u8],
}

/// How much of each buffer a column needs, in elements of it.
#[derive(Clone, Copy, PartialEq, Eq, Debug)]
pub struct Space {
    /// Bytes of validity bits.
    pub validity: usize,
    /// Offsets, of 32 bits each.
    pub offsets: usize,
    /// Bytes of cells.
    pub data: usize,
}

/// Why a column cannot be written out.
#[derive(Clone, Copy, PartialEq, Eq, Debug)]
pub enum OutputFault {
    /// A buffer is too short, or 32-bit offsets do not reach the end of the byte strings.
    Space,
}

impl Space {
    /// Whether the buffers are long enough.
    pub fn fits(&self, out: &Output) -> bool
        ensures { result ≡ roomy self.now (parts_seen out.now) }
    {
        self.validity <= out.validity.len()
            && self.offsets <= out.offsets.len()
            && self.data <= out.data.len()
    }
}
