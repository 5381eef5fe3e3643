//! What an accumulator with groups and one without share, for every value state and row order: the checks of their calls, in each call's order, the value and the key that are kept for each group, and writing these out.
#![tactic(auto)]

ghost use Rattle.std.specs.Prelude.{◌≡◌, length};

mod calls;
mod fronts;
mod groups;
mod keeper;
mod kept;
mod kinds;
mod leads;
mod marks;
mod room;
mod rows;
mod same;
mod taken;
mod walks;

pub use calls::{check_batch, check_columns, check_ungrouped};
use column::{BoolColumn, Column};
pub use fronts::write_flags;
pub use keeper::Keeper;
use layout::{FlagOutput, KeyOutputs, Output};

/// The columns of a call: a value column, and the first `count` of an array of order columns. An array and a count, and no slice, since an accumulator's calls refuse a count that no array has room for.
#[derive(Clone, Copy)]
pub struct Given<'values, 'keys> {
    /// The value column.
    pub value: Column<'values>,
    /// The order columns; those past the count are not looked at.
    pub orders: [Column<'keys>; 3],
    /// How many order columns are given.
    pub count: usize,
    // Behind a reference the length of an array is not known without this.
    ghost three: { length orders ≡ 3 },
}

/// A batch: its columns, a filter or flags, a group index for each row, and the total number of groups.
#[derive(Clone, Copy)]
pub struct Batch<'values, 'keys, 'groups, 'marks> {
    /// The value column and the order columns.
    pub columns: Given<'values, 'keys>,
    /// The filter of an update, or the flags of a merge.
    pub filter: Option<BoolColumn<'marks>>,
    /// The group of each row.
    pub indices: &'groups [usize],
    /// How many groups there are after the call.
    pub total: usize,
}

/// The caller's buffers for a state: for the values, for the key columns, and for the set flags.
#[derive(Drop)]
pub struct StateOutput<'a> {
    /// For the values.
    pub values: Output<'a>,
    /// For the key columns.
    pub keys: KeyOutputs<'a>,
    /// For the set flags.
    pub flags: FlagOutput<'a>,
}
