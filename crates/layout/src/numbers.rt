// Columns of numbers.
ghost use Rattle.std.specs.Prelude.{◌≡◌, ◌*◌, ◌≤◌, None, not, map, length, slice_index_or};
ghost use Rattle.std.specs.List.{flat_map};
ghost use Rattle.column.specs.Cells.{number_cell};
ghost use Rattle.column.specs.Checks.{refuse, Settles};
ghost use Rattle.column.specs.Columns.{count_up};
ghost use Rattle.column.specs.Views.{view_seen};
ghost use Rattle.layout.specs.declared.OutputFault.TheVariants as output;
ghost use Rattle.layout.specs.Layout.{number_bytes, number_content, over, fits, written};
ghost use Rattle.layout.specs.Written.{parts_seen, numbers_laid};

use crate::{CellSource, Output, OutputFault};
use column::{CellView, Kind};

// The eight bytes of a number, the lowest first.
#[inline]
pub(crate) fn number_bytes(number: i64) -> [u8; 8]
    ensures { result ≡ number_bytes number }
{
    number.to_le_bytes()
}

// The eight bytes of a cell in a column of numbers, zero for a null.
#[inline]
fn cell_bytes(cell: CellView) -> [u8; 8]
    ensures { result ≡ number_content (view_seen cell.entry) }
{
    match cell {
        CellView::Number(number) => number_bytes(number),
        CellView::Null | CellView::Bytes(_) | CellView::Fields(_) => [0; 8],
    }
}

// Writes the bytes of each number.
pub(crate) fn put_numbers<C: CellSource>(out: &mut [u8], cells: &C, rows: usize)
    requires { 8 * rows ≤ length out.old }
    ensures { out.new ≡ over (flat_map number_content (map (C.CellSource.shows cells.now) (count_up 0 rows))) out.old }
{
    // By place, since after a loop over chunks_exact_mut the length of the buffer alone is known.
    for row in 0..rows {
        out[8 * row..8 * row + 8].copy_from_slice(&cell_bytes(cells.cell_view(row)));
    }
}

// Numbers by row, each of which may be missing; null past the last.
#[derive(Clone, Copy)]
struct Numbers<'a> {
    cells: &'a [Option<i64>],
}

impl CellSource for Numbers<'_> {
    ghost shows = { λ s row. number_cell (slice_index_or s.cells.now row None) };

    #[inline]
    fn cell_view(&self, row: usize) -> CellView<'_> {
        match self.cells.get(row) {
            Some(Some(number)) => CellView::Number(*number),
            _ => CellView::Null,
        }
    }
}

impl<'a> Output<'a> {
    /// Writes a column of numbers, or nothing where a buffer is too short: SPACE. A missing number is a null.
    pub fn put_numbers(&mut self, cells: &[Option<i64>]) -> Result<(), OutputFault>
        ensures { let laid = numbers_laid cells.now in
            Settles (refuse (not (fits laid (parts_seen self.old))) output.Space) tt (written laid (parts_seen self.old)) (parts_seen self.old) result (parts_seen self.new) }
    {
        self.put_cells(Kind::Number, &Numbers { cells }, cells.len())
    }
}
