//! Batches: rows of a table.
ghost use Rattle.std.specs.Prelude.{◌≡◌};
ghost use Rattle.column.specs.Seen.{flags_seen, marks_seen};
ghost use Rattle.book.specs.Calls.{update, merge};
ghost use Rattle.keeping.specs.Replies.{batch_answer, no_outputs};
ghost use Rattle.keeping.specs.Seen.{batch_seen};
ghost use Rattle.grouped.specs.Accumulators.{Obeys};
ghost use Rattle.grouped.specs.Seen.{batch_of};

use crate::FirstLastGroupsAccumulator;
use crate::extremes::Extremes;
use column::{BoolColumn, Column};
use faults::Fault;
use keeping::{Batch, Given, check_batch};
use tables::{RowOrder, ValueState};

impl<S: ValueState, O: RowOrder> FirstLastGroupsAccumulator<S, O> {
    // Takes a batch in.
    fn take_batch(&mut self, batch: &Batch) -> Result<(), Fault>
        ensures { Obeys self.old
            (update (batch_seen batch.now) (marks_seen batch.now.filter))
            no_outputs (record { result = batch_answer result; outputs = no_outputs })
            self.new }
    {
        let held = self.slots.len;
        let kept = &self.kept;
        check_batch(&kept.state, &kept.order, held, batch)?;
        self.grow(batch.total);
        let mut best = Extremes::none();
        self.get_filtered_extreme_of_each_group(batch, &mut best);
        self.take_winners(batch, &best);
        Ok(())
    }

    /// Takes a batch in: the winner among each group's admitted rows replaces what the group holds if that is unset or beaten. The original's `update_batch`.
    ///
    /// The values, the first `count` of the order columns, a group number for each row and the filter, if there is one, all have one length; a row counts where the filter is true and not null. `total_num_groups` groups are held afterwards, at most 256 and no fewer than before.
    ///
    /// Refused, in this order: COLS, KIND, ROWS, TOTAL, SHRUNK, GROUP, LONG. A refused batch changes nothing.
    pub fn update_batch(
        &mut self,
        values: Column,
        orderings: [Column; 3],
        count: usize,
        group_indices: &[usize],
        opt_filter: Option<BoolColumn>,
        total_num_groups: usize,
    ) -> Result<(), Fault>
        ensures { Obeys self.old
            (update (batch_of values.entry orderings.entry count group_indices.now total_num_groups) (marks_seen opt_filter.entry))
            no_outputs (record { result = batch_answer result; outputs = no_outputs })
            self.new }
    {
        self.take_batch(&Batch {
            columns: Given {
                value: values,
                orders: orderings,
                count,
            },
            filter: opt_filter,
            indices: group_indices,
            total: total_num_groups,
        })
    }

    /// Takes a state's columns in, as `update_batch` takes a batch whose filter is the flags column: a row counts where its flag is true and not null. The original's `merge_batch`.
    ///
    /// Refused as there.
    pub fn merge_batch(
        &mut self,
        values: Column,
        orderings: [Column; 3],
        count: usize,
        group_indices: &[usize],
        is_set: BoolColumn,
        total_num_groups: usize,
    ) -> Result<(), Fault>
        ensures { Obeys self.old
            (merge (batch_of values.entry orderings.entry count group_indices.now total_num_groups) (flags_seen is_set.entry))
            no_outputs (record { result = batch_answer result; outputs = no_outputs })
            self.new }
    {
        self.take_batch(&Batch {
            columns: Given {
                value: values,
                orders: orderings,
                count,
            },
            filter: Some(is_set),
            indices: group_indices,
            total: total_num_groups,
        })
    }
}
