// What a column shows in a row, by reference.
ghost use Rattle.std.specs.Prelude.{◌≡◌, Some};
ghost use Rattle.std.specs.Bool.{Decides};
ghost use Rattle.column.specs.Cells.{numbers, strings, records, text, fields_cell};
ghost use Rattle.column.specs.Columns.{octets, shown, cell_at};
ghost use Rattle.column.specs.Seen.{column_seen, kind_seen};
ghost use Rattle.column.specs.Views.{view_seen};

use crate::{Column, Kind};

/// A cell as a column, a value state or a row order shows it: nothing is copied but numbers.
#[derive(Clone, Copy, PartialEq, Eq, Debug)]
pub enum CellView<'a> {
    /// The cell is null.
    Null,
    /// A number of 64 bits.
    Number(i64),
    /// A byte string.
    Bytes(&'a [u8]),
    /// The three fields of a record, each of which may be absent.
    Fields([Option<i64>; 3]),
}

// Whether two records are the same field by field.
#[inline]
fn same_fields(a: &[Option<i64>; 3], b: &[Option<i64>; 3]) -> bool
    ensures { Decides result (fields_cell (Some a.now) ≡ fields_cell (Some b.now)) }
{
    a[0] == b[0] && a[1] == b[1] && a[2] == b[2]
}

// Whether two byte strings are the same.
#[inline]
fn same_bytes(a: &[u8], b: &[u8]) -> bool
    ensures { Decides result (text a.now ≡ text b.now) }
{
    a == b
}

impl<'a> CellView<'a> {
    /// Whether two views show the same cell.
    #[inline]
    pub fn is_same(&self, other: &CellView) -> bool
        ensures { Decides result (view_seen self.now ≡ view_seen other.now) }
    {
        match (self, other) {
            (CellView::Null, CellView::Null) => true,
            (CellView::Number(a), CellView::Number(b)) => a == b,
            (CellView::Bytes(a), CellView::Bytes(b)) => same_bytes(a, b),
            (CellView::Fields(a), CellView::Fields(b)) => same_fields(a, b),
            _ => false,
        }
    }
}

// A byte string as a cell: its elements are bytes already.
#[inline]
fn text_view(bytes: &[u8]) -> CellView<'_>
    ensures { view_seen result ≡ text (octets bytes.now) }
{
    CellView::Bytes(bytes)
}

impl<'a> Column<'a> {
    #[inline]
    fn number_cell(&self, r: usize) -> CellView<'a>
        ensures { view_seen result ≡ shown numbers (column_seen self.now) r }
    {
        match self.number(r) {
            Some(number) => CellView::Number(number),
            None => CellView::Null,
        }
    }

    #[inline]
    fn bytes_cell(&self, r: usize) -> CellView<'a>
        ensures { view_seen result ≡ shown strings (column_seen self.now) r }
    {
        match self.bytes(r) {
            Some(bytes) => text_view(bytes),
            None => CellView::Null,
        }
    }

    #[inline]
    fn fields_cell(&self, r: usize) -> CellView<'a>
        ensures { view_seen result ≡ shown records (column_seen self.now) r }
    {
        match self.fields(r) {
            Some(fields) => CellView::Fields(fields),
            None => CellView::Null,
        }
    }

    /// The cell in row `r`, read as in a column of this kind; null where the row is null, or where its parts are not all there.
    #[inline]
    pub fn cell_as(&self, kind: Kind, r: usize) -> CellView<'a>
        ensures { view_seen result ≡ shown (kind_seen kind) (column_seen self.now) r }
    {
        match kind {
            Kind::Number => self.number_cell(r),
            Kind::Bytes => self.bytes_cell(r),
            Kind::Record => self.fields_cell(r),
        }
    }

    /// The cell in row `r`; null where the row is null, or where its parts are not all there.
    #[inline]
    pub fn cell(&self, r: usize) -> CellView<'a>
        ensures { view_seen result ≡ cell_at (column_seen self.now) r }
    {
        self.cell_as(self.kind, r)
    }
}
