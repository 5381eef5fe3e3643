// A call of an accumulator of groups.
use crate::answers::{malformed, settled, taken};
use crate::buffers::FlagBuffers;
use crate::emissions::{evaluate, save};
use crate::given::{Stop, filter, flags, given};
use grouped::FirstLastGroupsAccumulator;
use scenario::{Batch, Call, Columns, Marks, Reads, Room};
use std::alloc::{AllocError, Global};
use tables::{RowOrder, ValueState};

// Rows of a table come in.
fn update<'a, S: ValueState, O: RowOrder>(
    heap: Global,
    stage: &mut FirstLastGroupsAccumulator<S, O>,
    batch: &'a Batch,
    marks: &'a Option<Marks>,
) -> Result<String, Stop> {
    let given = given(&batch.columns)?;
    let filter = filter(marks)?;
    let groups = &batch.groups;
    stage.update_batch(
        given.value,
        given.orders,
        given.count,
        groups,
        filter,
        batch.total,
    )?;
    Ok(taken(heap)?)
}

// Rows that another accumulator wrote out come in.
fn merge<'a, S: ValueState, O: RowOrder>(
    heap: Global,
    stage: &mut FirstLastGroupsAccumulator<S, O>,
    batch: &'a Batch,
    marks: &'a Marks,
) -> Result<String, Stop> {
    let given = given(&batch.columns)?;
    let flags = flags(marks)?;
    let groups = &batch.groups;
    stage.merge_batch(
        given.value,
        given.orders,
        given.count,
        groups,
        flags,
        batch.total,
    )?;
    Ok(taken(heap)?)
}

// Rows become what another accumulator can take in.
fn convert<'a, S: ValueState, O: RowOrder>(
    heap: Global,
    stage: &FirstLastGroupsAccumulator<S, O>,
    columns: &'a Columns,
    marks: &'a Option<Marks>,
    room: Room,
) -> Result<String, Stop> {
    let given = given(columns)?;
    let filter = filter(marks)?;
    let mut flags = FlagBuffers::new(heap, given.value.rows, room)?;
    stage.convert_to_state(
        given.value,
        given.orders,
        given.count,
        filter,
        &mut flags.output(),
    )?;
    let mut text = taken(heap)?;
    flags.write(&mut text)?;
    Ok(text)
}

// Answers a call; an emission renumbers the list of open group numbers.
pub fn perform<S: ValueState, O: RowOrder>(
    heap: Global,
    stage: &mut FirstLastGroupsAccumulator<S, O>,
    reads: Reads,
    call: &Call,
    open: &mut [u32],
) -> Result<String, AllocError> {
    let answer = match call {
        Call::Update { batch, filter } => update(heap, stage, batch, filter),
        Call::Merge { batch, flags } => merge(heap, stage, batch, flags),
        Call::Convert {
            columns,
            filter,
            room,
        } => convert(heap, stage, columns, filter, *room),
        Call::Evaluate { leaving, room } => evaluate(heap, stage, reads, *leaving, *room, open),
        Call::State { leaving, room } => save(heap, stage, reads, *leaving, *room, open),
        Call::Single(_) => return malformed(heap),
    };
    settled(heap, answer)
}
