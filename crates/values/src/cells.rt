// What the value states do alike with the cells that they hold.
ghost use Rattle.std.specs.Prelude.{◌≡◌, length, nat_le, slice_index_or};
ghost use Rattle.column.specs.Cells.{null};
ghost use Rattle.column.specs.Checks.{outcome, refuse, Settles};
ghost use Rattle.column.specs.Seen.{kind_seen};
ghost use Rattle.column.specs.Views.{answer_seen};
ghost use Rattle.layout.specs.Layout.{written};
ghost use Rattle.layout.specs.Written.{parts_seen};
ghost use Rattle.tables.specs.Meaning.{Settings, state_of, first_cells};
ghost use Rattle.tables.specs.Refusals.{cells_laid, writing};
ghost use Rattle.tables.specs.declared.StateFault.TheVariants as state;
ghost use Rattle.values.specs.Held.{one_each};

use column::{CellView, Kind};
use layout::Output;
use tables::{Entries, HeldCell, StateFault, check_drop};

// The cell of a group: GROUP.
#[inline]
pub(crate) fn held_cell<T: HeldCell>(
    cells: &Entries<T>,
    group_idx: usize,
) -> Result<CellView<'_>, StateFault>
    ensures { let entries = one_each T.shows cells.now in
        answer_seen result ≡ outcome (refuse (nat_le (length entries) group_idx) state.Group) (slice_index_or (first_cells entries) group_idx null) }
{
    match cells.get(group_idx) {
        Some(held) => Ok(held.view()),
        None => Err(StateFault::Group),
    }
}

// Writes the first `n` cells as a column of a kind: FEWER, SPACE.
pub(crate) fn write_cells<T: HeldCell>(
    cells: &Entries<T>,
    kind: Kind,
    n: usize,
    out: &mut Output,
) -> Result<(), StateFault>
    ensures { let entries = one_each T.shows cells.now in
        (s : Settings) → kind_seen kind ≡ (state_of s).kind → Settles (writing s entries n (parts_seen out.old)) tt (written (cells_laid s entries n) (parts_seen out.old)) (parts_seen out.old) result (parts_seen out.new) }
{
    check_drop(cells.len(), n)?;
    Ok(cells.put(kind, n, out)?)
}
