//! How the columns of a number order are sorted.
ghost use Rattle.std.specs.Prelude.{◌≡◌, ◌≤◌, length, take};
ghost use Rattle.orders.specs.Counted.{columns_read};

use tables::Sorting;

/// One to three sortings, the one of the first column first: an array and a count, so that an order has fixed memory.
#[derive(Drop)]
pub struct Sortings {
    pub(crate) table: [Sorting; 3],
    pub(crate) count: usize,
    ghost whole: { length table ≡ 3 },
    ghost some: { 1 ≤ count },
    ghost few: { count ≤ 3 },
}

impl Sortings {
    /// The first `count` sortings; the first alone where a number order cannot read so many columns.
    pub fn new(table: [Sorting; 3], count: usize) -> Sortings
        ensures { take result.count result.table ≡ take (columns_read count) table }
    {
        let count = if (1..=3).contains(&count) { count } else { 1 };
        Sortings { table, count }
    }

    /// Those that count.
    #[inline]
    pub fn as_slice(&self) -> &[Sorting]
        ensures { result.now ≡ take self.now.count self.now.table }
    {
        &self.table[..self.count]
    }
}
