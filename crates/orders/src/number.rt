//! Keys of one to three numbers.
ghost use Rattle.std.specs.Prelude.{◌≡◌, ◌<◌, ◌≤◌, not, [], length, map, take};
ghost use Rattle.std.specs.Prelude.{option_and_then, slice_get};
ghost use Rattle.column.specs.Checks.{outcome, refuse};
ghost use Rattle.column.specs.Columns.{number_at};
ghost use Rattle.column.specs.Seen.{column_seen};
ghost use Rattle.tables.specs.Delivered.{number_order};
ghost use Rattle.tables.specs.Refusals.{measuring_key};
ghost use Rattle.tables.specs.declared.OrderFault.TheVariants as order;
ghost use Rattle.tables.proofs.Ordering.{number_order_laws};
ghost use Rattle.orders.specs.Counted.{one_to_three, columns_read};
ghost use Rattle.orders.specs.Numbers.{order_entries, order_settings};

use crate::key_column::KeyColumn;
use crate::sortings::Sortings;
use column::{CellView, Column, Kind};
use layout::{Output, Space};
use std::cmp::Ordering;
use tables::{
    Entries, GroupTable, HeldCell, Leading, OrderFault, RowOrder, Sorting, check_count, check_drop,
};

/// A key of one to three numbers, each of which may be null, for each held group. Columns are compared from the first on, each by its own sorting.
#[derive(Drop)]
pub struct NumberOrder {
    pub(crate) sorts: Sortings,
    pub(crate) keys: Entries<[Option<i64>; 3]>,
}

// The number in a row of column `j`; none where it is null, or no such column is given.
#[inline]
fn number_in(columns: &[Column], j: usize, row: usize) -> Option<i64>
    ensures { result ≡ option_and_then (λ c. number_at c row) (slice_get (map column_seen columns.now) j) }
{
    columns.get(j)?.number(row)
}

impl NumberOrder {
    /// Whether a number order can read so many columns: COLS.
    pub fn check(count: usize) -> Result<(), OrderFault>
        ensures { result ≡ outcome (refuse (not (one_to_three count)) order.Cols) tt }
    {
        check_count(count, count)
    }

    /// An order of no group over the first `count` sortings; over the first alone where that is declined.
    pub fn new(sorts: [Sorting; 3], count: usize) -> NumberOrder
        ensures entries { order_entries result ≡ [] }
        ensures settings { order_settings result ≡ number_order (take (columns_read count) sorts) }
    {
        NumberOrder {
            sorts: Sortings::new(sorts, count),
            keys: Entries::new([None; 3]),
        }
    }

    // Key column `named`.
    #[inline]
    fn key_column(&self, named: usize) -> KeyColumn<'_>
        ensures keys { result.keys.now ≡ self.now.keys }
        ensures named { result.named ≡ named }
    {
        KeyColumn {
            keys: self.keys.as_slice(),
            named,
        }
    }

    // Whether the first `n` numbers of key column `named` can be written out: COLS, FEWER.
    fn check_column(&self, named: usize, n: usize) -> Result<(), OrderFault>
        ensures answer { result ≡ outcome (measuring_key (order_settings self.now) (order_entries self.now) named n) tt }
        ensures few { length self.now.keys ≤ 256 }
    {
        let held = self.keys.len();
        if named >= self.sorts.count {
            return Err(OrderFault::Cols);
        }
        Ok(check_drop(held, n)?)
    }
}

impl GroupTable for NumberOrder {
    type Fault = OrderFault;

    ghost entries = { order_entries };

    ghost settings = { order_settings };

    ghost declines = { order.Table };

    #[inline]
    fn groups(&self) -> usize {
        self.keys.len()
    }

    #[inline]
    fn columns(&self) -> usize {
        self.sorts.count
    }

    fn grow(&mut self, total: usize) -> Result<(), OrderFault> {
        Ok(self.keys.grow(total, [None; 3])?)
    }

    fn drop_first(&mut self, n: usize) -> Result<(), OrderFault> {
        Ok(self.keys.drop_first(n)?)
    }
}

impl RowOrder for NumberOrder {
    ghost lawful = { λ o. number_order_laws (take o.sorts.count o.sorts.table) };

    #[inline]
    fn kind_of(&self, named: usize) -> Option<Kind> {
        (named < self.sorts.count).then_some(Kind::Number)
    }

    // Every number is taken.
    #[inline]
    fn is_named_taken(&self, _named: usize, _column: &Column, _row: usize) -> bool {
        true
    }

    #[inline]
    fn first_untaken(&self, _named: usize, _column: &Column) -> Option<usize> {
        None
    }

    #[inline]
    fn compare(&self, columns: &[Column], a: usize, b: usize) -> Ordering {
        let sorts = self.sorts.as_slice();
        let mut j = 0;
        loop {
            if j >= sorts.len() {
                break Ordering::Equal;
            }
            let here = sorts[j].compare(number_in(columns, j, a), number_in(columns, j, b));
            if here != Ordering::Equal {
                break here;
            }
            j += 1;
        }
    }

    // The first column tells most rows apart.
    #[inline]
    fn leading<'a>(&self, columns: &[Column<'a>]) -> Option<Leading<'a>> {
        match columns.first() {
            Some(column) => Some(Leading {
                column: *column,
                sort: self.sorts.table[0],
                decides: self.sorts.count == 1,
            }),
            None => None,
        }
    }

    #[inline]
    fn compare_with_held(&self, group_idx: usize, columns: &[Column], row: usize) -> Ordering {
        let Some(held) = self.keys.get(group_idx) else {
            return Ordering::Equal;
        };
        let sorts = self.sorts.as_slice();
        let mut j = 0;
        loop {
            if j >= sorts.len() {
                break Ordering::Equal;
            }
            let here = sorts[j].compare(number_in(columns, j, row), held[j]);
            if here != Ordering::Equal {
                break here;
            }
            j += 1;
        }
    }

    fn put_key(&mut self, group_idx: usize, columns: &[Column], row: usize) {
        let key = [
            number_in(columns, 0, row),
            number_in(columns, 1, row),
            number_in(columns, 2, row),
        ];
        self.keys.set(group_idx, key);
    }

    fn key_cell(&self, named: usize, group_idx: usize) -> Result<CellView<'_>, OrderFault> {
        if named >= self.sorts.count {
            return Err(OrderFault::Cols);
        }
        match self.keys.get(group_idx) {
            Some(key) => Ok(key[named].view()),
            None => Err(OrderFault::Group),
        }
    }

    fn key_space(&self, named: usize, n: usize) -> Result<Space, OrderFault> {
        self.check_column(named, n)?;
        let column = self.key_column(named);
        Ok(Space::of_cells(Kind::Number, &column, n).unwrap())
    }

    fn write_key(&self, named: usize, n: usize, out: &mut Output) -> Result<(), OrderFault> {
        self.check_column(named, n)?;
        let column = self.key_column(named);
        Ok(out.put_cells(Kind::Number, &column, n)?)
    }
}
