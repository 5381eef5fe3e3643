//! What is held without groups.
ghost use Rattle.std.specs.Prelude.{◌≡◌, length};
ghost use Rattle.keeping.specs.Keepers.{cells};

use crate::origin::Origin;
use keeping::Keeper;
use tables::GroupTable;

/// A keeper of one group, where its row came from, if one is held, and whether input is said to arrive in order.
#[derive(Drop)]
pub struct Single<S: GroupTable, O: GroupTable> {
    pub(crate) keeper: Keeper<S, O>,
    pub(crate) held: Option<Origin>,
    pub(crate) is_input_pre_ordered: bool,
    ghost one: { length (cells keeper) ≡ 1 },
}
