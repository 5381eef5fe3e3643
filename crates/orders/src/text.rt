//! Keys of one byte string.
ghost use Rattle.std.specs.Prelude.{◌≡◌, ◌+◌, ◌-◌, ◌<◌, ◌≤◌, [], ◌∷◌, length, map, not, find, slice_index, ℕ};
ghost use Rattle.std.specs.Cmp.Lexicographic.{slice_cmp};
ghost use Rattle.std.specs.Option.{option_map};
ghost use Rattle.std.specs.Ordering.{nat_cmp};
ghost use Rattle.column.specs.Cells.{strings, text_cell};
ghost use Rattle.column.specs.Checks.{outcome};
ghost use Rattle.column.specs.Columns.{count_up, octets, shown, text_at};
ghost use Rattle.column.specs.Seen.{column_seen};
ghost use Rattle.layout.specs.Written.{short_seen};
ghost use Rattle.tables.specs.Delivered.{takes_text, text_order};
ghost use Rattle.tables.specs.Missing.{sorted_verdict};
ghost use Rattle.tables.specs.Reading.{key_read};
ghost use Rattle.tables.specs.Refusals.{measuring_key};
ghost use Rattle.tables.specs.declared.OrderFault.TheVariants as order;
ghost use Rattle.tables.proofs.Strings.{text_order_laws};
ghost use Rattle.orders.specs.Texts.{order_entries, order_settings};

use column::{CellView, Column, Kind};
use layout::{Output, ShortBytes, Space};
use std::cmp::Ordering;
use tables::{Entries, GroupTable, HeldCell, OrderFault, RowOrder, Sorting, check_drop};

/// A key of one byte string of at most 32 bytes, or null, for each held group. Strings are compared byte by byte, as unsigned numbers; a proper prefix is smaller.
///
/// The strings are held by value, so that an order has fixed memory.
#[derive(Drop)]
pub struct TextOrder {
    pub(crate) sort: Sorting,
    pub(crate) keys: Entries<Option<ShortBytes>>,
}

// The elements of a string are bytes already.
#[inline]
fn as_octets(bytes: &[u8]) -> &[u8]
    ensures same { result.now ≡ bytes.now }
    ensures bytes { octets result.now ≡ result.now }
{
    bytes
}

// The byte string in a row; none where it is null.
#[inline]
fn read_text<'a>(column: &Column<'a>, row: usize) -> Option<&'a [u8]>
    ensures { option_map (λ x. x.now) result ≡ option_map octets (text_at (column_seen column.now) row) }
{
    match column.bytes(row) {
        Some(bytes) => Some(as_octets(bytes)),
        None => None,
    }
}

// The byte string in a row of the one column; none where it is null, or no column is given.
#[inline]
fn text_in<'a>(columns: &[Column<'a>], row: usize) -> Option<&'a [u8]>
    ensures { text_cell (option_map (λ x. x.now) result) ∷ [] ≡ key_read (strings ∷ []) (map column_seen columns.now) row }
{
    match columns.first() {
        Some(column) => read_text(column, row),
        None => None,
    }
}

// A byte string that is held; none where null is.
#[inline]
fn held_text(key: &Option<ShortBytes>) -> Option<&[u8]>
    ensures { option_map (λ x. x.now) result ≡ option_map short_seen key.now }
{
    key.as_ref().map(|short| short.as_slice())
}

// How one byte string stands to another: byte by byte, but the first eight at once where both have so many.
#[inline]
fn order(a: &[u8], b: &[u8]) -> Ordering
    ensures { result ≡ slice_cmp nat_cmp a.now b.now }
{
    let (a, b) = (as_octets(a), as_octets(b));
    match (a.split_first_chunk(), b.split_first_chunk()) {
        (Some((front, rest)), Some((other, others))) => {
            let here = u64::from_be_bytes(*front).cmp(&u64::from_be_bytes(*other));
            if here != Ordering::Equal {
                return here;
            }
            rest.cmp(&others)
        }
        _ => a.cmp(&b),
    }
}

// How one byte string that may be missing stands to another.
#[inline]
fn compare_texts(sort: Sorting, a: Option<&[u8]>, b: Option<&[u8]>) -> Ordering
    ensures { result ≡ sorted_verdict (slice_cmp nat_cmp) sort (option_map (λ x. x.now) a.entry) (option_map (λ x. x.now) b.entry) }
{
    match (a, b) {
        (Some(a), Some(b)) if sort.descending => order(b, a),
        (Some(a), Some(b)) => order(a, b),
        _ => sort.compare(a, b),
    }
}

// Whether the byte string in a row has at most 32 bytes, or is null.
#[inline]
fn is_short(column: &Column, row: usize) -> bool
    ensures { result ≡ takes_text (shown strings (column_seen column.now) row) }
{
    match column.bytes(row) {
        Some(bytes) => bytes.len() <= 32,
        None => true,
    }
}

// No byte string between two offsets that stand side by side is longer.
fn longest(offsets: &[u32]) -> u32
    ensures { (i : ℕ) → i + 1 < length offsets.now → slice_index offsets.now (i + 1) - slice_index offsets.now i ≤ result }
{
    let mut most = 0;
    for i in 1..offsets.len() {
        most = most.max(offsets[i].saturating_sub(offsets[i - 1]));
    }
    most
}

// The lowest row whose byte string is longer than 32 bytes.
fn first_long(column: &Column) -> Option<usize>
    ensures { result ≡ find (λ r. not (takes_text (shown strings (column_seen column.now) r))) (count_up 0 column.now.rows) }
{
    for row in 0..column.rows {
        if !is_short(column, row) {
            return Some(row);
        }
    }
    None
}

impl TextOrder {
    /// An order of no group, by one column of byte strings.
    pub fn new(sort: Sorting) -> TextOrder
        ensures entries { order_entries result ≡ [] }
        ensures settings { order_settings result ≡ text_order sort }
    {
        TextOrder {
            sort,
            keys: Entries::new(None),
        }
    }

    // Whether the first `n` keys of column `named` can be written out: COLS, FEWER.
    fn check_column(&self, named: usize, n: usize) -> Result<(), OrderFault>
        ensures { result ≡ outcome (measuring_key (order_settings self.now) (order_entries self.now) named n) tt }
    {
        if named >= 1 {
            return Err(OrderFault::Cols);
        }
        Ok(check_drop(self.keys.len(), n)?)
    }
}

impl GroupTable for TextOrder {
    type Fault = OrderFault;

    ghost entries = { order_entries };

    ghost settings = { order_settings };

    ghost declines = { order.Table };

    #[inline]
    fn groups(&self) -> usize {
        self.keys.len()
    }

    #[inline]
    fn columns(&self) -> usize {
        1
    }

    fn grow(&mut self, total: usize) -> Result<(), OrderFault> {
        Ok(self.keys.grow(total, None)?)
    }

    fn drop_first(&mut self, n: usize) -> Result<(), OrderFault> {
        Ok(self.keys.drop_first(n)?)
    }
}

impl RowOrder for TextOrder {
    ghost lawful = { λ o. text_order_laws o.sort };

    #[inline]
    fn kind_of(&self, named: usize) -> Option<Kind> {
        (named == 0).then_some(Kind::Bytes)
    }

    #[inline]
    fn is_named_taken(&self, named: usize, column: &Column, row: usize) -> bool {
        named >= 1 || is_short(column, row)
    }

    // The offsets alone mostly tell that no string is too long.
    fn first_untaken(&self, named: usize, column: &Column) -> Option<usize> {
        if named >= 1 || longest(column.offsets) <= 32 {
            return None;
        }
        first_long(column)
    }

    #[inline]
    fn compare(&self, columns: &[Column], a: usize, b: usize) -> Ordering {
        compare_texts(self.sort, text_in(columns, a), text_in(columns, b))
    }

    #[inline]
    fn compare_with_held(&self, group_idx: usize, columns: &[Column], row: usize) -> Ordering {
        match self.keys.get(group_idx) {
            Some(held) => compare_texts(self.sort, text_in(columns, row), held_text(held)),
            None => Ordering::Equal,
        }
    }

    fn put_key(&mut self, group_idx: usize, columns: &[Column], row: usize) {
        match text_in(columns, row) {
            Some(bytes) => {
                if let Some(short) = ShortBytes::new(bytes) {
                    self.keys.set(group_idx, Some(short));
                }
            }
            None => self.keys.set(group_idx, None),
        }
    }

    fn key_cell(&self, named: usize, group_idx: usize) -> Result<CellView<'_>, OrderFault> {
        if named >= 1 {
            return Err(OrderFault::Cols);
        }
        match self.keys.get(group_idx) {
            Some(key) => Ok(key.view()),
            None => Err(OrderFault::Group),
        }
    }

    fn key_space(&self, named: usize, n: usize) -> Result<Space, OrderFault> {
        self.check_column(named, n)?;
        Ok(self.keys.space(Kind::Bytes, n)?)
    }

    fn write_key(&self, named: usize, n: usize, out: &mut Output) -> Result<(), OrderFault> {
        self.check_column(named, n)?;
        Ok(self.keys.put(Kind::Bytes, n, out)?)
    }
}
