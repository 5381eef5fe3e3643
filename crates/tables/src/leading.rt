//! The column that tells most rows of a batch apart.
ghost use Rattle.std.specs.Prelude.{◌≡◌};
ghost use Rattle.tables.specs.Leading.{leading_verdict};

use crate::Sorting;
use column::Column;
use std::cmp::Ordering;

/// A column of numbers by which an order compares rows first, lent to a walk over a batch so that nothing else of the order is looked at where this column tells two rows apart.
#[derive(Clone, Copy)]
pub struct Leading<'a> {
    /// The column, read as one of numbers.
    pub column: Column<'a>,
    /// How it is sorted.
    pub sort: Sorting,
    /// Whether rows that it does not tell apart are tied: no other column is read.
    pub decides: bool,
}

impl Leading<'_> {
    /// How row `a` stands to row `b` by this column alone.
    #[inline(always)]
    pub fn compare(&self, a: usize, b: usize) -> Ordering
        ensures { result ≡ leading_verdict self.now a b }
    {
        self.sort
            .compare(self.column.number(a), self.column.number(b))
    }
}
