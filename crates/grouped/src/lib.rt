//! FIRST and LAST values of groups, generic over the value state and the row order.
#![tactic(auto)]

ghost use Rattle.std.specs.Prelude.{◌≡◌, ◌≤◌, length};

mod agreeing;
mod batches;
mod conversion;
mod emission;
mod extremes;
mod leaving;
mod looking;
mod making;
mod notice;
mod slots;
mod states;
mod taking;
mod walk;

use keeping::Keeper;
pub use keeping::StateOutput;
pub use notice::{FINISHED, ShiftNotice};
use slots::SlotTable;
use tables::GroupTable;

/// The first or last value of each group by ordering keys: the original's `FirstLastGroupsAccumulator`.
///
/// Groups are numbered from 0; up to 256 are held. A group is unset until a row of it is taken in.
#[derive(Drop)]
pub struct FirstLastGroupsAccumulator<S: GroupTable, O: GroupTable> {
    kept: Keeper<S, O>,
    slots: SlotTable,
    ghost level: { length (S.GroupTable.entries kept.state) ≡ slots.len },
    ghost few: { slots.len ≤ 256 },
    // Behind a reference the length of an array is not known without this.
    ghost places: { length slots.slots ≡ 256 },
}

/// How many groups an emission takes, from group 0 on: the original's `EmitTo`.
#[derive(Clone, Copy)]
pub enum EmitTo {
    All,
    First(usize),
}
