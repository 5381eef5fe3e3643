// Columns of byte strings.
ghost use Rattle.std.specs.Prelude.{◌≡◌, ◌^◌, ◌<◌, ◌≤◌, map, length, Some, None, nat_lt, if◌then◌else◌};
ghost use Rattle.std.specs.List.{flat_map};
ghost use Rattle.column.specs.Columns.{count_up};
ghost use Rattle.column.specs.Views.{view_seen};
ghost use Rattle.layout.specs.Layout.{string_content, offsets_from, over};

use crate::CellSource;
use column::CellView;

// The bytes of a cell in a column of byte strings, none for a null.
#[inline]
fn cell_bytes(cell: CellView<'_>) -> &[u8]
    ensures { result.now ≡ string_content (view_seen cell.entry) }
{
    match cell {
        CellView::Bytes(bytes) => bytes,
        CellView::Null | CellView::Number(_) | CellView::Fields(_) => &[],
    }
}

// How many bytes the strings have; none where that is more than a usize says.
pub(crate) fn strings_length<C: CellSource>(cells: &C, rows: usize) -> Option<usize>
    ensures { let total = length (flat_map string_content (map (C.CellSource.shows cells.now) (count_up 0 rows))) in
        result ≡ (if nat_lt total (2 ^ 64) then Some total else None) }
{
    let mut total: usize = 0;
    for row in 0..rows {
        total = total.checked_add(cell_bytes(cells.cell_view(row)).len())?;
    }
    Some(total)
}

// Writes the bytes of each string, and where each begins and the last one ends.
pub(crate) fn put_strings<C: CellSource>(
    offsets: &mut [u32],
    data: &mut [u8],
    cells: &C,
    rows: usize,
)
    requires offsets { rows < length offsets.old }
    requires room { length (flat_map string_content (map (C.CellSource.shows cells.now) (count_up 0 rows))) ≤ length «data».old }
    requires reach { length (flat_map string_content (map (C.CellSource.shows cells.now) (count_up 0 rows))) < 2 ^ 32 }
    ensures offsets { offsets.new ≡ over (offsets_from 0 (map (C.CellSource.shows cells.now) (count_up 0 rows))) offsets.old }
    ensures bytes { «data».new ≡ over (flat_map string_content (map (C.CellSource.shows cells.now) (count_up 0 rows))) «data».old }
{
    let mut end = 0;
    offsets[0] = 0;
    for row in 0..rows {
        let bytes = cell_bytes(cells.cell_view(row));
        let start = end;
        end = start + bytes.len();
        data[start..end].copy_from_slice(bytes);
        offsets[row + 1] = end as u32;
    }
}
