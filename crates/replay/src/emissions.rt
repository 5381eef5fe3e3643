// Emissions of an accumulator.
use crate::answers::emitted;
use crate::buffers::{Buffers, FlagBuffers};
use crate::given::Stop;
use grouped::{EmitTo, FirstLastGroupsAccumulator, StateOutput};
use layout::{KeyOutputs, Space};
use midnight::{close_day, save_day};
use scenario::{Leaving, OutputColumn, Reads, Room};
use std::alloc::{AllocError, Global};
use tables::{RowOrder, ValueState};

// The space of a column that is not written: more groups are asked for than are held, or the order does not read it.
const NOTHING: Space = Space {
    validity: 0,
    offsets: 0,
    data: 0,
};

// How many groups leave, as a call is told.
fn emit_to(leaving: Leaving) -> EmitTo {
    match leaving {
        Leaving::All => EmitTo::All,
        Leaving::First(n) => EmitTo::First(n),
    }
}

// How many groups leave, where an accumulator holds so many.
fn count(leaving: Leaving, held: usize) -> usize {
    match leaving {
        Leaving::All => held,
        Leaving::First(n) => n,
    }
}

// The buffers of the values of the first `n` groups.
pub fn value_buffers<S: ValueState>(
    heap: Global,
    values: &S,
    reads: Reads,
    n: usize,
    room: Room,
) -> Result<Buffers, AllocError> {
    let space = values.space(n).unwrap_or(NOTHING);
    Buffers::new(heap, OutputColumn::Values, reads.values, space, room)
}

// The buffers of key column `j` of the first `n` groups.
fn key_buffers<O: RowOrder>(
    heap: Global,
    keys: &O,
    reads: Reads,
    j: usize,
    n: usize,
    room: Room,
) -> Result<Buffers, AllocError> {
    let column = match j {
        0 => OutputColumn::FirstKey,
        1 => OutputColumn::SecondKey,
        _ => OutputColumn::ThirdKey,
    };
    let space = keys.key_space(j, n).unwrap_or(NOTHING);
    Buffers::new(heap, column, reads.keys, space, room)
}

// The buffers of a state; the order reads the first `keys` of the three key columns.
#[derive(Drop)]
pub struct StateBuffers {
    values: Buffers,
    first: Buffers,
    second: Buffers,
    third: Buffers,
    flags: FlagBuffers,
    keys: usize,
}

impl StateBuffers {
    // The buffers of the first `n` groups.
    pub fn new<S: ValueState, O: RowOrder>(
        heap: Global,
        values: &S,
        keys: &O,
        reads: Reads,
        n: usize,
        room: Room,
    ) -> Result<StateBuffers, AllocError> {
        let flags = if n <= values.groups() { n } else { 0 };
        Ok(StateBuffers {
            values: value_buffers(heap, values, reads, n, room)?,
            first: key_buffers(heap, keys, reads, 0, n, room)?,
            second: key_buffers(heap, keys, reads, 1, n, room)?,
            third: key_buffers(heap, keys, reads, 2, n, room)?,
            flags: FlagBuffers::new(heap, flags, room)?,
            keys: reads.count,
        })
    }

    // Where a call writes to.
    pub fn output(&mut self) -> StateOutput<'_> {
        StateOutput {
            values: self.values.output(),
            keys: KeyOutputs {
                first: self.first.output(),
                second: self.second.output(),
                third: self.third.output(),
            },
            flags: self.flags.output(),
        }
    }

    // Writes the output parts.
    pub fn write(&self, text: &mut String) -> Result<(), AllocError> {
        self.values.write(text)?;
        for key in [&self.first, &self.second, &self.third]
            .iter()
            .take(self.keys)
        {
            key.write(text)?;
        }
        self.flags.write(text)
    }
}

// The values of the first groups.
pub fn evaluate<S: ValueState, O: RowOrder>(
    heap: Global,
    stage: &mut FirstLastGroupsAccumulator<S, O>,
    reads: Reads,
    leaving: Leaving,
    room: Room,
    open: &mut [u32],
) -> Result<String, Stop> {
    let n = count(leaving, stage.groups());
    let mut values = value_buffers(heap, stage.values(), reads, n, room)?;
    let dropped = close_day(stage, emit_to(leaving), &mut values.output(), open)?;
    let mut text = emitted(heap, dropped, open)?;
    values.write(&mut text)?;
    Ok(text)
}

// The values, the keys and the set flags of the first groups.
pub fn save<S: ValueState, O: RowOrder>(
    heap: Global,
    stage: &mut FirstLastGroupsAccumulator<S, O>,
    reads: Reads,
    leaving: Leaving,
    room: Room,
    open: &mut [u32],
) -> Result<String, Stop> {
    let n = count(leaving, stage.groups());
    let mut state = StateBuffers::new(heap, stage.values(), stage.keys(), reads, n, room)?;
    let dropped = save_day(stage, emit_to(leaving), &mut state.output(), open)?;
    let mut text = emitted(heap, dropped, open)?;
    state.write(&mut text)?;
    Ok(text)
}
