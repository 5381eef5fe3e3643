//! The checks that every group table and row order makes, each in its order.
ghost use Rattle.std.specs.Prelude.{◌≡◌, not, false, ◌&&◌, map, length, nat_eq, nat_le, nat_lt, [], ◌∷◌};
ghost use Rattle.std.specs.List.{list_any};
ghost use Rattle.column.specs.Checks.{outcome, refuse};
ghost use Rattle.column.specs.Seen.{column_seen, columns_seen};
ghost use Rattle.tables.specs.declared.OrderFault.TheVariants as fault;
ghost use Rattle.tables.specs.Reading.{named_taken};
ghost use Rattle.tables.specs.Refusals.{growing, dropping, some_column, some_of, other_kind, untaken, rows_refused, key_refused};

use crate::{OrderFault, RowOrder, TableFault};
use column::Column;

/// Growing to a total where `held` groups are held: TOTAL, SHRUNK.
pub fn check_grow(held: usize, total: usize) -> Result<(), TableFault>
    ensures { result ≡ outcome (growing held total) tt }
{
    if total > 256 {
        return Err(TableFault::Total);
    }
    if total < held {
        return Err(TableFault::Shrunk);
    }
    Ok(())
}

/// Dropping or writing out the first `n` of `held` groups: FEWER.
pub fn check_drop(held: usize, n: usize) -> Result<(), TableFault>
    ensures { result ≡ outcome (dropping held n) tt }
{
    if n > held {
        return Err(TableFault::Fewer);
    }
    Ok(())
}

// The columns that an order reads, each in its place: KIND.
fn check_kinds<O: RowOrder>(order: &O, columns: &[Column]) -> Result<(), OrderFault>
    requires { length columns.now ≡ length (O.settings order.now).kinds }
    ensures { result ≡ outcome (refuse (some_column (other_kind (O.settings order.now).kinds) 0 (map column_seen columns.now)) fault.Kind) tt }
{
    for (named, column) in columns.iter().enumerate() {
        order.reads_named(named, column)?;
    }
    Ok(())
}

// Whether a row is past one of the columns.
fn past(columns: &[Column], row: usize) -> bool
    ensures { result ≡ list_any (λ c. not (nat_lt row c.rows)) columns.now }
{
    columns.iter().any(|column| row >= column.rows)
}

// Whether one of the rows is.
fn some_past(columns: &[Column], rows: &[usize]) -> bool
    ensures { result ≡ list_any (λ r. list_any (λ c. not (nat_lt r c.rows)) columns.now) rows.now }
{
    rows.iter().any(|row| past(columns, *row))
}

// Whether a row has a cell that is not taken, the columns read as of the kinds that are read.
fn has_untaken<O: RowOrder>(order: &O, columns: &[Column], row: usize) -> bool
    requires { length columns.now ≡ length (O.settings order.now).kinds }
    ensures { result ≡ some_column (λ j c. not (named_taken (O.settings order.now) j c row)) 0 (map column_seen columns.now) }
{
    for (named, column) in columns.iter().enumerate() {
        if !order.is_named_taken(named, column, row) {
            return true;
        }
    }
    false
}

// Whether one of the rows has a cell that is not taken, the columns being of the kinds that are read.
fn some_untaken<O: RowOrder>(order: &O, columns: &[Column], rows: &[usize]) -> bool
    requires all { length columns.now ≡ length (O.settings order.now).kinds }
    requires kinds { some_column (other_kind (O.settings order.now).kinds) 0 (map column_seen columns.now) ≡ false }
    ensures { result ≡ some_of (untaken (O.settings order.now) (map column_seen columns.now)) rows.now }
{
    for row in rows {
        if has_untaken(order, columns, *row) {
            return true;
        }
    }
    false
}

/// Whether as many columns are given as are read, and 1 to 3: COLS.
pub fn check_count(read: usize, count: usize) -> Result<(), OrderFault>
    ensures { result ≡ outcome (refuse (not (nat_eq count read && (nat_le 1 count && nat_le count 3))) fault.Cols) tt }
{
    if count != read || !(1..=3).contains(&count) {
        return Err(OrderFault::Cols);
    }
    Ok(())
}

// Some rows of the columns that an order reads: KIND, ROWS, LONG.
fn check_rows<O: RowOrder>(order: &O, columns: &[Column], rows: &[usize]) -> Result<(), OrderFault>
    requires { length columns.now ≡ length (O.settings order.now).kinds }
    ensures { result ≡ outcome (rows_refused (O.settings order.now) (map column_seen columns.now) rows.now) tt }
{
    check_kinds(order, columns)?;
    if some_past(columns, rows) {
        return Err(OrderFault::Rows);
    }
    if some_untaken(order, columns, rows) {
        return Err(OrderFault::Long);
    }
    Ok(())
}

// Some rows of the columns that are given: COLS, KIND, ROWS, LONG.
pub(crate) fn check_key<O: RowOrder>(
    order: &O,
    columns: [Column; 3],
    count: usize,
    rows: &[usize],
) -> Result<(), OrderFault>
    ensures { result ≡ outcome (key_refused (O.settings order.now) false (columns_seen columns.entry count) count rows.now) tt }
{
    check_count(order.columns(), count)?;
    check_rows(order, &columns[..count], rows)
}

// A row of the columns that are given, for a group: COLS, GROUP, KIND, ROWS, LONG.
pub(crate) fn check_held_key<O: RowOrder>(
    order: &O,
    group: usize,
    columns: [Column; 3],
    count: usize,
    row: usize,
) -> Result<(), OrderFault>
    ensures { result ≡ outcome (key_refused (O.settings order.now) (nat_le (length (O.entries order.now)) group) (columns_seen columns.entry count) count (row ∷ [])) tt }
{
    check_count(order.columns(), count)?;
    if group >= order.groups() {
        return Err(OrderFault::Group);
    }
    check_rows(order, &columns[..count], &[row])
}
