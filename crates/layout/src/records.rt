// Columns of records.
ghost use Rattle.std.specs.Prelude.{◌≡◌, ◌+◌, ◌*◌, ◌≤◌, map, length, Some, None, slice_index_or};
ghost use Rattle.std.specs.List.{flat_map};
ghost use Rattle.column.specs.Cells.{fields_cell};
ghost use Rattle.column.specs.Columns.{count_up};
ghost use Rattle.column.specs.Views.{view_seen};
ghost use Rattle.layout.specs.Layout.{bit, has_field, field_bytes, record_content, over};

use crate::CellSource;
use crate::numbers::number_bytes;
use column::CellView;

// The presence byte of a record: its bits 0, 1 and 2 say which field is there.
#[inline]
fn presence(fields: &[Option<i64>; 3]) -> u8
    ensures { result ≡ bit (has_field (slice_index_or fields.now 0 None)) + 2 * bit (has_field (slice_index_or fields.now 1 None)) + 4 * bit (has_field (slice_index_or fields.now 2 None)) }
{
    u8::from(fields[0].is_some())
        + 2 * u8::from(fields[1].is_some())
        + 4 * u8::from(fields[2].is_some())
}

// The eight bytes of a field, zero where it is absent.
#[inline]
fn field_bytes(field: Option<i64>) -> [u8; 8]
    ensures { result ≡ field_bytes field }
{
    match field {
        Some(number) => number_bytes(number),
        None => [0; 8],
    }
}

// The 25 bytes of a record.
#[inline]
fn record_bytes(fields: [Option<i64>; 3]) -> [u8; 25]
    ensures { result ≡ record_content (fields_cell (Some fields)) }
{
    let mut bytes = [0; 25];
    bytes[0] = presence(&fields);
    for (j, field) in fields.iter().enumerate() {
        bytes[1 + 8 * j..9 + 8 * j].copy_from_slice(&field_bytes(*field));
    }
    bytes
}

// The 25 bytes of a cell in a column of records, zero for a null.
#[inline]
fn cell_bytes(cell: CellView) -> [u8; 25]
    ensures { result ≡ record_content (view_seen cell.entry) }
{
    match cell {
        CellView::Fields(fields) => record_bytes(fields),
        CellView::Null | CellView::Number(_) | CellView::Bytes(_) => [0; 25],
    }
}

// Writes the bytes of each record.
pub(crate) fn put_records<C: CellSource>(out: &mut [u8], cells: &C, rows: usize)
    requires { 25 * rows ≤ length out.old }
    ensures { out.new ≡ over (flat_map record_content (map (C.CellSource.shows cells.now) (count_up 0 rows))) out.old }
{
    // By place, as in put_numbers, for the same reason.
    for row in 0..rows {
        out[25 * row..25 * row + 25].copy_from_slice(&cell_bytes(cells.cell_view(row)));
    }
}
