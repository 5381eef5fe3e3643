//! The public calls.
ghost use Rattle.std.specs.Prelude.{◌≡◌};
ghost use Rattle.std.specs.Option.{is_some};
ghost use Rattle.column.specs.Seen.{flags_seen};
ghost use Rattle.layout.specs.Written.{parts_seen};
ghost use Rattle.keeping.specs.Replies.{given_of, batch_answer, values_only, no_outputs};
ghost use Rattle.keeping.specs.Seen.{outputs_seen};
ghost use Rattle.ungrouped.specs.Accumulators.{Obeys};
ghost use Rattle.ungrouped.specs.Calls.{update, merge, evaluate, state};
ghost use Rattle.ungrouped.specs.Reached.{KeepsBest};

use crate::ValueAccumulator;
use crate::directions::Direction;
use column::{BoolColumn, Column};
use faults::Fault;
use keeping::{Given, StateOutput};
use layout::{FlagSource, Output};
use tables::{RowOrder, ValueState};

// Whether a row is held, as a column of truth values.
#[derive(Clone, Copy)]
struct SetFlag {
    set: bool,
}

impl FlagSource for SetFlag {
    ghost use Rattle.std.specs.Prelude.{Some};

    ghost shows = { λ f k. Some f.set };

    fn flag(&self, _row: usize) -> Option<bool> {
        Some(self.set)
    }
}

impl<S: ValueState, O: RowOrder, D: Direction> ValueAccumulator<S, O, D> {
    /// Whether a row is held. Whatever calls led here, it is a top row of all that they brought, where the rows of updates arrive in order if they are said to.
    pub fn is_set(&self) -> bool
        ensures set { result ≡ is_some self.now.single.held }
        ensures best { KeepsBest self.now.single }
    {
        self.single.held.is_some()
    }

    /// Takes rows in: for FIRST the earliest, for LAST the latest that no other of them beats, or of input in order the first or the last, is held where what is held gives way to it. The original's `update_batch`.
    ///
    /// The order columns come as an array, of which the first `count` are read. COLS, KIND, ROWS and LONG leave what is held unchanged.
    pub fn update_batch(
        &mut self,
        values: Column,
        orderings: [Column; 3],
        count: usize,
    ) -> Result<(), Fault>
        ensures { Obeys self.old.single (update (given_of values.entry orderings.entry count)) no_outputs (record { result = batch_answer result; outputs = no_outputs }) self.new.single }
    {
        let given = Given {
            value: values,
            orders: orderings,
            count,
        };
        self.single.take_batch(&given, None)
    }

    /// Takes states of other accumulators in: of the rows whose flag is true, whatever the null policy, the earliest for FIRST, the latest for LAST that no other of them beats is held where what is held gives way to it. The original's `merge_batch`.
    ///
    /// The columns come as in an update. COLS, KIND, ROWS, FLAGS where a flag is null, and LONG leave what is held unchanged.
    pub fn merge_batch(
        &mut self,
        values: Column,
        orderings: [Column; 3],
        count: usize,
        is_set: BoolColumn,
    ) -> Result<(), Fault>
        ensures { Obeys self.old.single (merge (given_of values.entry orderings.entry count) (flags_seen is_set.entry)) no_outputs (record { result = batch_answer result; outputs = no_outputs }) self.new.single }
    {
        let given = Given {
            value: values,
            orders: orderings,
            count,
        };
        self.single.take_batch(&given, Some(is_set))
    }

    /// Writes the held value, null where nothing is held: SPACE, and nothing is written. What is held stays. The original's `evaluate`.
    pub fn evaluate(&self, out: &mut Output) -> Result<(), Fault>
        ensures { Obeys self.now.single evaluate (values_only (parts_seen out.old)) (record { result = batch_answer result; outputs = values_only (parts_seen out.new) }) self.now.single }
    {
        self.single.keeper.write_values(1, out)
    }

    /// Writes the held value, the held key and whether a row is held: SPACE, in all parts before anything is written. What is held stays. The original's `state`.
    pub fn state(&self, out: &mut StateOutput) -> Result<(), Fault>
        ensures { Obeys self.now.single state (outputs_seen out.old) (record { result = batch_answer result; outputs = outputs_seen out.new }) self.now.single }
    {
        let flag = SetFlag {
            set: self.single.held.is_some(),
        };
        self.single.keeper.write_state(&flag, 1, out)
    }
}
