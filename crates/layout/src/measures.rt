// The space that a column of cells needs.
ghost use Rattle.std.specs.Prelude.{◌≡◌, ◌+◌, ◌*◌, ◌/◌, ◌^◌, ◌≤◌, Some, None, nat_lt, if◌then◌else◌};
ghost use Rattle.column.specs.Cells.{strings};
ghost use Rattle.column.specs.Seen.{kind_seen};
ghost use Rattle.layout.specs.Written.{measured, rows_laid};

use crate::strings::strings_length;
use crate::{CellSource, Space};
use column::Kind;

// The space that so many bytes for each row need; none where that is more than a usize says.
fn wide_space(rows: usize, width: usize) -> Option<Space>
    ensures { result ≡ (if nat_lt (width * rows) (2 ^ 64) then Some (record { validity = (rows + 7) / 8; offsets = 0; «data» = width * rows }) else None) }
{
    match rows.checked_mul(width) {
        Some(data) => Some(Space {
            validity: rows.div_ceil(8),
            offsets: 0,
            data,
        }),
        None => None,
    }
}

// The space that byte strings need; none where that is more than a usize says.
fn strings_space<C: CellSource>(cells: &C, rows: usize) -> Option<Space>
    ensures { result ≡ measured (rows_laid strings (C.CellSource.shows cells.now) rows) }
{
    let offsets = rows.checked_add(1)?;
    match strings_length(cells, rows) {
        Some(data) => Some(Space {
            validity: rows.div_ceil(8),
            offsets,
            data,
        }),
        None => None,
    }
}

impl Space {
    /// The space that the first `rows` cells need as a column of a kind; none where a buffer would need more elements than a usize says.
    pub fn of_cells<C: CellSource>(kind: Kind, cells: &C, rows: usize) -> Option<Space>
        ensures { result ≡ measured (rows_laid (kind_seen kind) (C.CellSource.shows cells.now) rows) }
    {
        match kind {
            Kind::Number => wide_space(rows, 8),
            Kind::Bytes => strings_space(cells, rows),
            Kind::Record => wide_space(rows, 25),
        }
    }
}
