// Columns of cells.
ghost use Rattle.std.specs.Prelude.{◌≡◌, ℕ, ◌+◌, ◌/◌, ◌≤◌, not, map, length};
ghost use Rattle.column.specs.Cells.{Cell, is_null};
ghost use Rattle.column.specs.Checks.{refuse, Settles};
ghost use Rattle.column.specs.Columns.{count_up};
ghost use Rattle.column.specs.Seen.{kind_seen};
ghost use Rattle.column.specs.Views.{view_seen};
ghost use Rattle.layout.specs.declared.OutputFault.TheVariants as output;
ghost use Rattle.layout.specs.Layout.{validity_of, over, written};
ghost use Rattle.layout.specs.Written.{parts_seen, rows_laid, ends_within, has_place};

use crate::bits::put_bits;
use crate::numbers::put_numbers;
use crate::records::put_records;
use crate::strings::put_strings;
use crate::{Output, OutputFault, Space};
use column::{CellView, Kind};

/// Cells by row, as a column, a value state or a row order shows them.
pub trait CellSource {
    ghost shows: { Self → ℕ → Cell };

    /// The cell of a row, by reference.
    fn cell_view(&self, row: usize) -> CellView<'_>
        ensures { view_seen result ≡ shows self.now row };
}

// Whether there is a cell, and no null.
#[inline]
fn is_there(cell: CellView) -> bool
    ensures { result ≡ not (is_null (view_seen cell.entry)) }
{
    match cell {
        CellView::Null => false,
        CellView::Number(_) | CellView::Bytes(_) | CellView::Fields(_) => true,
    }
}

// Writes a bit for each row, 1 where its cell is not null.
fn put_validity<C: CellSource>(out: &mut [u8], cells: &C, rows: usize)
    requires { (rows + 7) / 8 ≤ length out.old }
    ensures { out.new ≡ over (validity_of (map (C.CellSource.shows cells.now) (count_up 0 rows))) out.old }
{
    put_bits(out, rows, |row| is_there(cells.cell_view(row)));
}

// Whether 32-bit offsets reach the end of a column that needs so much space.
fn reaches(kind: Kind, space: &Space) -> bool
    ensures { result ≡ ends_within (kind_seen kind) space.now.«data» }
{
    match kind {
        Kind::Bytes => space.data <= u32::MAX as usize,
        Kind::Number | Kind::Record => true,
    }
}

impl<'a> Output<'a> {
    // Whether a column of the first `rows` cells can be written.
    fn has_place<C: CellSource>(&self, kind: Kind, cells: &C, rows: usize) -> bool
        ensures { result ≡ has_place (kind_seen kind) (rows_laid (kind_seen kind) (C.CellSource.shows cells.now) rows) (parts_seen self.now) }
    {
        match Space::of_cells(kind, cells, rows) {
            Some(space) => reaches(kind, &space) && space.fits(self),
            None => false,
        }
    }

    /// Writes the first `rows` cells as a column of a kind, or nothing where a buffer is too short, or where 32-bit offsets do not reach the end of the byte strings: SPACE.
    /// A cell of another kind is written as if it were zero or empty, and not as null.
    pub fn put_cells<C: CellSource>(
        &mut self,
        kind: Kind,
        cells: &C,
        rows: usize,
    ) -> Result<(), OutputFault>
        ensures { let laid = rows_laid (kind_seen kind) (C.CellSource.shows cells.now) rows in
            Settles (refuse (not (has_place (kind_seen kind) laid (parts_seen self.old))) output.Space) tt (written laid (parts_seen self.old)) (parts_seen self.old) result (parts_seen self.new) }
    {
        if !self.has_place(kind, cells, rows) {
            return Err(OutputFault::Space);
        }
        put_validity(self.validity, cells, rows);
        match kind {
            Kind::Number => put_numbers(self.data, cells, rows),
            Kind::Bytes => put_strings(self.offsets, self.data, cells, rows),
            Kind::Record => put_records(self.data, cells, rows),
        }
        Ok(())
    }
}
