//! Cells that a table holds by value.
ghost use Rattle.std.specs.Prelude.{◌≡◌, ◌≤◌, length};
ghost use Rattle.column.specs.Cells.{Cell, number_cell, fields_cell};
ghost use Rattle.column.specs.Views.{view_seen};
ghost use Rattle.layout.specs.Layout.{string_content};
ghost use Rattle.layout.specs.Written.{short_cell};
ghost use Rattle.tables.specs.Shorts.{number_short, fields_short, text_short};

use column::CellView;
use layout::ShortBytes;

/// A cell that a table holds by value, null among them.
///
/// It has at most 32 bytes as a byte string, so that 32-bit offsets reach the end of any table.
pub trait HeldCell: Copy {
    ghost shows: { Self → Cell };

    /// The cell, by reference.
    fn view(&self) -> CellView<'_>
        ensures { view_seen result ≡ shows self.now };

    ghost short: { (x : Self) → length (string_content (shows x)) ≤ 32 };
}

impl HeldCell for Option<i64> {
    ghost shows = { number_cell };

    ghost short = { number_short };

    #[inline]
    fn view(&self) -> CellView<'_> {
        match self {
            Some(number) => CellView::Number(*number),
            None => CellView::Null,
        }
    }
}

impl HeldCell for Option<[Option<i64>; 3]> {
    ghost shows = { fields_cell };

    ghost short = { fields_short };

    #[inline]
    fn view(&self) -> CellView<'_> {
        match self {
            Some(fields) => CellView::Fields(*fields),
            None => CellView::Null,
        }
    }
}

impl HeldCell for Option<ShortBytes> {
    ghost shows = { short_cell };

    ghost short = { text_short };

    #[inline]
    fn view(&self) -> CellView<'_> {
        match self {
            Some(text) => CellView::Bytes(text.as_slice()),
            None => CellView::Null,
        }
    }
}
