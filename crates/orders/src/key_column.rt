//! One column of the keys of numbers that a table holds.
ghost use Rattle.std.specs.Prelude.{[], slice_index_or, None};
ghost use Rattle.column.specs.Cells.{number_cell};

use column::CellView;
use layout::CellSource;
use tables::HeldCell;

/// Column `named` of the keys, where they stand.
#[derive(Clone, Copy)]
pub struct KeyColumn<'a> {
    pub keys: &'a [[Option<i64>; 3]],
    pub named: usize,
}

impl CellSource for KeyColumn<'_> {
    ghost shows = { λ k r. number_cell (slice_index_or (slice_index_or k.keys.now r []) k.named None) };

    #[inline]
    fn cell_view(&self, row: usize) -> CellView<'_> {
        match self.keys.get(row) {
            Some(key) => match key.get(self.named) {
                Some(number) => number.view(),
                None => CellView::Null,
            },
            None => CellView::Null,
        }
    }
}
