// The stages of the quay: numbers by one number, smaller ones first.
ghost use Rattle.std.specs.Prelude.{◌≡◌, [], None, false};
ghost use Rattle.grouped.specs.Accumulators as Grouped;
ghost use Rattle.ungrouped.specs.Accumulators as Ungrouped;

use grouped::FirstLastGroupsAccumulator;
use orders::NumberOrder;
use tables::Sorting;
use ungrouped::LastValueAccumulator;
use values::NumberValueState;

// A number for each event, LAST by one number.
pub type Stage = FirstLastGroupsAccumulator<NumberValueState, NumberOrder>;

// A number, LAST by one number.
pub type Last = LastValueAccumulator<NumberValueState, NumberOrder>;

// The order by one number, with nulls last.
fn ascending() -> NumberOrder {
    let sort = Sorting {
        descending: false,
        nulls_first: false,
    };
    NumberOrder::new([sort; 3], 1)
}

// A stage that holds no event.
pub fn new_stage() -> Stage
    ensures empty { Grouped.Stands result [] }
    ensures last { (Grouped.making result).first ≡ false }
    ensures nulls { (Grouped.making result).ignore_nulls ≡ false }
{
    FirstLastGroupsAccumulator::new(NumberValueState::new(), ascending(), false, false)
}

// A LAST that holds nothing, and whose rows are not said to come in order.
pub fn new_last() -> Last
    ensures empty { Ungrouped.Stands result.single None }
    ensures last { (Ungrouped.alone result.single).making.first ≡ false }
    ensures nulls { (Ungrouped.alone result.single).making.ignore_nulls ≡ false }
    ensures unordered { (Ungrouped.alone result.single).in_order ≡ false }
{
    LastValueAccumulator::new(NumberValueState::new(), ascending(), false, false)
}
