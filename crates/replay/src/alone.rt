// A call of an accumulator without groups.
use crate::answers::{malformed, settled, taken};
use crate::emissions::{StateBuffers, value_buffers};
use crate::given::{Stop, flags, given};
use column::BoolColumn;
use faults::Fault;
use grouped::StateOutput;
use keeping::Given;
use layout::Output;
use scenario::{Call, Columns, Marks, Reads, Room, SingleCall};
use std::alloc::{AllocError, Global};
use tables::{RowOrder, ValueState};
use ungrouped::{FirstValueAccumulator, LastValueAccumulator};

// What FIRST and LAST have in common here.
pub trait Alone {
    type State: ValueState;

    type Order: RowOrder;

    // Rows come in.
    fn update(&mut self, given: &Given) -> Result<(), Fault>;

    // Rows that other accumulators wrote out come in.
    fn merge(&mut self, given: &Given, flags: BoolColumn) -> Result<(), Fault>;

    // The value goes out.
    fn evaluate(&self, out: &mut Output) -> Result<(), Fault>;

    // The value, the key and the set flag go out.
    fn state(&self, out: &mut StateOutput) -> Result<(), Fault>;

    // The value that is held, the first of a state.
    fn values(&self) -> &Self::State;

    // The key that is held, the first of an order.
    fn keys(&self) -> &Self::Order;
}

impl<S: ValueState, O: RowOrder> Alone for FirstValueAccumulator<S, O> {
    type State = S;

    type Order = O;

    // Rows come in.
    fn update(&mut self, given: &Given) -> Result<(), Fault> {
        self.update_batch(given.value, given.orders, given.count)
    }

    // Rows that other accumulators wrote out come in.
    fn merge(&mut self, given: &Given, flags: BoolColumn) -> Result<(), Fault> {
        self.merge_batch(given.value, given.orders, given.count, flags)
    }

    // The value goes out.
    fn evaluate(&self, out: &mut Output) -> Result<(), Fault> {
        FirstValueAccumulator::evaluate(self, out)
    }

    // The value, the key and the set flag go out.
    fn state(&self, out: &mut StateOutput) -> Result<(), Fault> {
        FirstValueAccumulator::state(self, out)
    }

    // The value that is held, the first of a state.
    fn values(&self) -> &S {
        FirstValueAccumulator::values(self)
    }

    // The key that is held, the first of an order.
    fn keys(&self) -> &O {
        FirstValueAccumulator::keys(self)
    }
}

impl<S: ValueState, O: RowOrder> Alone for LastValueAccumulator<S, O> {
    type State = S;

    type Order = O;

    // Rows come in.
    fn update(&mut self, given: &Given) -> Result<(), Fault> {
        self.update_batch(given.value, given.orders, given.count)
    }

    // Rows that other accumulators wrote out come in.
    fn merge(&mut self, given: &Given, flags: BoolColumn) -> Result<(), Fault> {
        self.merge_batch(given.value, given.orders, given.count, flags)
    }

    // The value goes out.
    fn evaluate(&self, out: &mut Output) -> Result<(), Fault> {
        LastValueAccumulator::evaluate(self, out)
    }

    // The value, the key and the set flag go out.
    fn state(&self, out: &mut StateOutput) -> Result<(), Fault> {
        LastValueAccumulator::state(self, out)
    }

    // The value that is held, the first of a state.
    fn values(&self) -> &S {
        LastValueAccumulator::values(self)
    }

    // The key that is held, the first of an order.
    fn keys(&self) -> &O {
        LastValueAccumulator::keys(self)
    }
}

// Rows come in.
fn update<A: Alone>(heap: Global, single: &mut A, columns: &Columns) -> Result<String, Stop> {
    single.update(&given(columns)?)?;
    Ok(taken(heap)?)
}

// Rows that other accumulators wrote out come in.
fn merge<'a, A: Alone>(
    heap: Global,
    single: &mut A,
    columns: &'a Columns,
    marks: &'a Marks,
) -> Result<String, Stop> {
    let given = given(columns)?;
    single.merge(&given, flags(marks)?)?;
    Ok(taken(heap)?)
}

// The value.
fn evaluate<A: Alone>(heap: Global, single: &A, reads: Reads, room: Room) -> Result<String, Stop> {
    let mut values = value_buffers(heap, single.values(), reads, 1, room)?;
    single.evaluate(&mut values.output())?;
    let mut text = taken(heap)?;
    values.write(&mut text)?;
    Ok(text)
}

// The value, the key and the set flag.
fn state<A: Alone>(heap: Global, single: &A, reads: Reads, room: Room) -> Result<String, Stop> {
    let mut state = StateBuffers::new(heap, single.values(), single.keys(), reads, 1, room)?;
    single.state(&mut state.output())?;
    let mut text = taken(heap)?;
    state.write(&mut text)?;
    Ok(text)
}

// Answers a call.
pub fn play<A: Alone>(
    heap: Global,
    single: &mut A,
    reads: Reads,
    call: &Call,
) -> Result<String, AllocError> {
    let Call::Single(call) = call else {
        return malformed(heap);
    };
    let answer = match call {
        SingleCall::Update { columns } => update(heap, single, columns),
        SingleCall::Merge { columns, flags } => merge(heap, single, columns, flags),
        SingleCall::Evaluate { room } => evaluate(heap, single, reads, *room),
        SingleCall::State { room } => state(heap, single, reads, *room),
    };
    settled(heap, answer)
}
