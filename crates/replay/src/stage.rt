// The accumulators: one for each value state and each row order, of groups or without them.
ghost use Rattle.std.specs.Prelude.{◌≡◌, IfOk};
ghost use Rattle.scenario.specs.Accumulators.{reads_of};

use crate::alone::play;
use crate::calls::perform;
use column::Kind;
use grouped::FirstLastGroupsAccumulator;
use orders::{NumberOrder, TextOrder};
use scenario::{Call, Form, Making, Order, Reads};
use std::alloc::{AllocError, Global};
use tables::{RowOrder, ValueState};
use ungrouped::{FirstValueAccumulator, LastValueAccumulator};
use values::{BytesValueState, NumberValueState, RecordValueState};

// An accumulator on the heap, since its tables are large.
#[derive(Drop)]
enum Accumulator<S: ValueState + Drop, O: RowOrder + Drop> {
    Groups(Box<FirstLastGroupsAccumulator<S, O>>),
    First(Box<FirstValueAccumulator<S, O>>),
    Last(Box<LastValueAccumulator<S, O>>),
}

// An accumulator by its value state and its row order.
#[derive(Drop)]
enum Stages {
    NumbersByNumbers(Accumulator<NumberValueState, NumberOrder>),
    BytesByNumbers(Accumulator<BytesValueState, NumberOrder>),
    RecordsByNumbers(Accumulator<RecordValueState, NumberOrder>),
    NumbersByText(Accumulator<NumberValueState, TextOrder>),
    BytesByText(Accumulator<BytesValueState, TextOrder>),
    RecordsByText(Accumulator<RecordValueState, TextOrder>),
}

// An accumulator, and what it reads.
#[derive(Drop)]
pub struct Stage {
    reads: Reads,
    accumulator: Stages,
}

impl<S: ValueState + Drop, O: RowOrder + Drop> Accumulator<S, O> {
    // An accumulator of a state and an order, made as asked.
    fn new(
        heap: Global,
        making: &Making,
        state: S,
        order: O,
    ) -> Result<Accumulator<S, O>, AllocError> {
        let nulls = making.ignore_nulls;
        match making.form {
            Form::Grouped => {
                let made = FirstLastGroupsAccumulator::new(state, order, making.first, nulls);
                Ok(Accumulator::Groups(Box::new(heap, made)?))
            }
            Form::Single { pre_ordered } if making.first => {
                let made = FirstValueAccumulator::new(state, order, nulls, pre_ordered);
                Ok(Accumulator::First(Box::new(heap, made)?))
            }
            Form::Single { pre_ordered } => {
                let made = LastValueAccumulator::new(state, order, nulls, pre_ordered);
                Ok(Accumulator::Last(Box::new(heap, made)?))
            }
        }
    }

    // Answers a call; an emission of groups renumbers the list of open group numbers.
    fn call(
        &mut self,
        heap: Global,
        reads: Reads,
        call: &Call,
        open: &mut [u32],
    ) -> Result<String, AllocError> {
        match self {
            Accumulator::Groups(stage) => perform(heap, stage, reads, call, open),
            Accumulator::First(single) => play(heap, &mut **single, reads, call),
            Accumulator::Last(single) => play(heap, &mut **single, reads, call),
        }
    }
}

// The accumulator that is asked for, by numbers.
fn by_numbers(heap: Global, making: &Making, order: NumberOrder) -> Result<Stages, AllocError> {
    match making.values {
        Kind::Number => {
            let made = Accumulator::new(heap, making, NumberValueState::new(), order)?;
            Ok(Stages::NumbersByNumbers(made))
        }
        Kind::Bytes => {
            let made = Accumulator::new(heap, making, BytesValueState::new(), order)?;
            Ok(Stages::BytesByNumbers(made))
        }
        Kind::Record => {
            let made = Accumulator::new(heap, making, RecordValueState::new(), order)?;
            Ok(Stages::RecordsByNumbers(made))
        }
    }
}

// The accumulator that is asked for, by text.
fn by_text(heap: Global, making: &Making, order: TextOrder) -> Result<Stages, AllocError> {
    match making.values {
        Kind::Number => {
            let made = Accumulator::new(heap, making, NumberValueState::new(), order)?;
            Ok(Stages::NumbersByText(made))
        }
        Kind::Bytes => {
            let made = Accumulator::new(heap, making, BytesValueState::new(), order)?;
            Ok(Stages::BytesByText(made))
        }
        Kind::Record => {
            let made = Accumulator::new(heap, making, RecordValueState::new(), order)?;
            Ok(Stages::RecordsByText(made))
        }
    }
}

impl Stage {
    // The accumulator that is asked for.
    pub fn new(heap: Global, making: &Making) -> Result<Stage, AllocError>
        ensures { IfOk result (λ stage. stage.reads ≡ reads_of making.now) }
    {
        let accumulator = match making.order {
            Order::Numbers { sorts, count } => {
                by_numbers(heap, making, NumberOrder::new(sorts, count))?
            }
            Order::Text { sort } => by_text(heap, making, TextOrder::new(sort))?,
        };
        Ok(Stage {
            reads: making.reads(),
            accumulator,
        })
    }

    // What the accumulator reads.
    pub fn reads(&self) -> Reads
        ensures { result ≡ self.now.reads }
    {
        self.reads
    }

    // Answers a call; an emission of groups renumbers the list of open group numbers.
    pub fn call(
        &mut self,
        heap: Global,
        call: &Call,
        open: &mut [u32],
    ) -> Result<String, AllocError>
        ensures { self.new.reads ≡ self.old.reads }
    {
        let reads = self.reads;
        match &mut self.accumulator {
            Stages::NumbersByNumbers(stage) => stage.call(heap, reads, call, open),
            Stages::BytesByNumbers(stage) => stage.call(heap, reads, call, open),
            Stages::RecordsByNumbers(stage) => stage.call(heap, reads, call, open),
            Stages::NumbersByText(stage) => stage.call(heap, reads, call, open),
            Stages::BytesByText(stage) => stage.call(heap, reads, call, open),
            Stages::RecordsByText(stage) => stage.call(heap, reads, call, open),
        }
    }
}
