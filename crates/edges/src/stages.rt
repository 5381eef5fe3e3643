// Stages to be tested, what they decline, and columns for them.
use column::{Column, Kind};
use faults::Fault;
use grouped::FirstLastGroupsAccumulator;
use orders::{NumberOrder, TextOrder};
use tables::Sorting;
use values::{BytesValueState, NumberValueState};

// A stage of numbers by numbers.
pub type Numbers = FirstLastGroupsAccumulator<NumberValueState, NumberOrder>;

// A stage of texts by texts.
pub type Texts = FirstLastGroupsAccumulator<BytesValueState, TextOrder>;

// Number, layer, column and row of a refusal.
pub type Refused = (u8, u8, u8, usize);

// Ascending, nulls last.
const UP: Sorting = Sorting {
    descending: false,
    nulls_first: false,
};

// A LAST of numbers by one number.
pub fn numbers() -> Numbers {
    let order = NumberOrder::new([UP; 3], 1);
    FirstLastGroupsAccumulator::new(NumberValueState::new(), order, false, false)
}

// A LAST of texts by a text.
pub fn texts() -> Texts {
    FirstLastGroupsAccumulator::new(BytesValueState::new(), TextOrder::new(UP), false, false)
}

// What a refusal says.
pub fn refused(fault: Fault) -> Refused {
    (fault.number(), fault.layer(), fault.column(), fault.row)
}

// A column of numbers, all of whose bytes are zero.
pub fn zeros<'a>(rows: usize, data: &'a [u8]) -> Column<'a> {
    Column {
        kind: Kind::Number,
        rows,
        validity: &[],
        offsets: &[],
        data,
    }
}

// A column of one text, between two offsets.
pub fn text<'a>(offsets: &'a [u32; 2], data: &'a [u8]) -> Column<'a> {
    Column {
        kind: Kind::Bytes,
        rows: 1,
        validity: &[],
        offsets,
        data,
    }
}

// Grows the groups of a stage of numbers by a batch without rows, or answers the refusal's number.
pub fn grow(stage: &mut Numbers, count: usize, total: usize) -> Result<(), u8> {
    let none = zeros(0, &[]);
    stage
        .update_batch(none, [none; 3], count, &[], None, total)
        .map_err(|fault| fault.number())
}
