//! What an accumulator with groups and one without share: a value and a key for each group, and how one row stands to another.
ghost use Rattle.std.specs.Prelude.{◌≡◌, length};

use tables::GroupTable;

/// A value state and a row order that hold as many groups, FIRST or LAST, and whether rows with a null value are left out.
#[derive(Drop)]
pub struct Keeper<S: GroupTable, O: GroupTable> {
    /// The value of each group.
    pub state: S,
    /// The key of each group.
    pub order: O,
    /// FIRST, else LAST.
    pub pick_first: bool,
    /// Whether rows with a null value are left out.
    pub ignore_nulls: bool,
    ghost level: { length (S.GroupTable.entries state) ≡ length (O.GroupTable.entries order) },
}
