//! Group tables, and the value states and row orders that build on them.
#![tactic(auto)]

mod cells;
mod checks;
mod display;
mod entries;
mod faults;
mod leading;
mod order;
mod sorted;
mod spaces;
mod state;
mod table;

pub use cells::HeldCell;
pub use checks::{check_count, check_drop, check_grow};
pub use entries::Entries;
pub use leading::Leading;
pub use order::RowOrder;
pub use state::ValueState;
pub use table::GroupTable;

/// Why a group table declines to grow, to drop or to write out.
#[derive(Clone, Copy, PartialEq, Eq, Debug)]
pub enum TableFault {
    /// It is to grow to more than 256 groups.
    Total,
    /// It is to grow to fewer groups than it holds.
    Shrunk,
    /// It is to drop or to write out more groups than it holds.
    Fewer,
}

/// Why a value state declines a call.
#[derive(Clone, Copy, PartialEq, Eq, Debug)]
pub enum StateFault {
    /// Its table declines.
    Table(TableFault),
    /// The group is not held.
    Group,
    /// The column is of another kind than the one that is read.
    Kind,
    /// The row is past the column.
    Rows,
    /// The cell is not taken, as a byte string that is too long to be held.
    Long,
    /// A buffer of the output is too short.
    Space,
}

/// Why a row order declines a call.
///
/// Each layer names its own refusals, so this stands beside `StateFault`, though `Cols` alone is more.
#[derive(Clone, Copy, PartialEq, Eq, Debug)]
pub enum OrderFault {
    /// Its table declines.
    Table(TableFault),
    /// Not as many columns are given as are read, or not 1 to 3, or there is no column of this number.
    Cols,
    /// The group is not held.
    Group,
    /// A column is of another kind than the one that is read in its place.
    Kind,
    /// A row is past one of the columns.
    Rows,
    /// A cell is not taken, as a byte string that is too long to be held.
    Long,
    /// A buffer of the outputs is too short, or more columns are read than there are outputs.
    Space,
}

/// How one order column is sorted: `descending` turns values round, not nulls. The original's `SortOptions`.
#[derive(Clone, Copy, PartialEq, Eq, Debug)]
pub struct Sorting {
    /// The greatest value comes first.
    pub descending: bool,
    /// Nulls come before every value, and else after.
    pub nulls_first: bool,
}
