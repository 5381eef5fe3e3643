//! Columns: plain views over the caller's buffers, whose cells are defined for any parts.
#![tactic(auto)]

mod bits;
mod display;
mod making;
mod numbering;
mod reading;
mod view;

pub use view::CellView;

/// What the cells of a column are.
#[derive(Clone, Copy, PartialEq, Eq, Debug)]
pub enum Kind {
    /// Numbers of 64 bits, eight bytes each, the lowest first.
    Number,
    /// Byte strings, each from one offset to the next.
    Bytes,
    /// Records of three numbers each of which may be absent: 25 bytes, the first of which says by its bits 0 to 2 which field is there.
    Record,
}

/// A column over the caller's buffers. No validity bytes: no row is null.
#[derive(Clone, Copy, Debug)]
pub struct Column<'a> {
    /// What the cells are.
    pub kind: Kind,
    /// How many rows there are.
    pub rows: usize,
    /// A bit for each row, the lowest of each byte first: 1 where the row is not null.
    pub validity: &'a [u8],
    /// Where each byte string begins and the last one ends; none for the other kinds.
    pub offsets: &'a [u32],
    /// The bytes of the cells.
    pub data: &'a [u8],
}

/// A column of truth values over the caller's buffers.
#[derive(Clone, Copy, Debug)]
pub struct BoolColumn<'a> {
    /// How many rows there are.
    pub rows: usize,
    /// A bit for each row, the lowest of each byte first: 1 where the row is not null. No bytes: no row is null.
    pub validity: &'a [u8],
    /// A bit for each row: its truth value.
    pub bits: &'a [u8],
}

/// Why a column cannot be made.
#[derive(Clone, Copy, PartialEq, Eq, Debug)]
pub enum ColumnFault {
    /// No kind has the number.
    Kind,
    /// The parts do not fit the kind and the rows, or there are over 1,024 rows.
    Shape,
}
