//! Tables of cells, measured and written out.
ghost use Rattle.std.specs.Prelude.{◌≡◌, ◌≤◌, map, length, take, not, slice_index_or};
ghost use Rattle.column.specs.Cells.{null};
ghost use Rattle.column.specs.Checks.{outcome, refuse, Settles};
ghost use Rattle.column.specs.Seen.{kind_seen};
ghost use Rattle.layout.specs.declared.OutputFault.TheVariants as output;
ghost use Rattle.layout.specs.Layout.{laid_out, fits, written};
ghost use Rattle.layout.specs.Written.{parts_seen, space_of};
ghost use Rattle.tables.specs.Refusals.{dropping};

use crate::checks::check_drop;
use crate::{Entries, HeldCell, TableFault};
use column::{CellView, Kind};
use layout::{CellSource, Output, OutputFault, Space};

// The cells of some entries; null past the last.
#[derive(Clone, Copy)]
struct Shown<'a, T> {
    entries: &'a [T],
}

impl<'a, T: HeldCell> CellSource for Shown<'a, T> {
    ghost shows = { λ s r. slice_index_or (map T.shows s.entries.now) r null };

    #[inline]
    fn cell_view(&self, row: usize) -> CellView<'_> {
        match self.entries.get(row) {
            Some(cell) => cell.view(),
            None => CellView::Null,
        }
    }
}

impl<T: HeldCell> Entries<T> {
    /// The space that the first `n` entries need as a column of a kind: FEWER.
    pub fn space(&self, kind: Kind, n: usize) -> Result<Space, TableFault>
        ensures { result ≡ outcome (dropping (length self.now) n) (space_of (laid_out (kind_seen kind) (map T.shows (take n self.now)))) }
    {
        let entries = self.as_slice();
        check_drop(entries.len(), n)?;
        Ok(Space::of_cells(kind, &Shown { entries }, n).unwrap())
    }

    /// Writes the first `n` entries, all of which are held, as a column of a kind: SPACE.
    pub fn put(&self, kind: Kind, n: usize, out: &mut Output) -> Result<(), OutputFault>
        ensures { let laid = laid_out (kind_seen kind) (map T.shows (take n self.now)) in
            n ≤ length self.now → Settles (refuse (not (fits laid (parts_seen out.old))) output.Space) tt (written laid (parts_seen out.old)) (parts_seen out.old) result (parts_seen out.new) }
    {
        let entries = self.as_slice();
        out.put_cells(kind, &Shown { entries }, n)
    }
}
