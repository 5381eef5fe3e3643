//! The walk through a batch: the earliest admitted row of each group that no other of them beats.
ghost use Rattle.std.specs.Prelude.{◌≡◌, ℕ, ◌<◌, Bool, true, length, Option, slice_index};
ghost use Rattle.std.specs.Bool.{IsTrue};
ghost use Rattle.column.specs.Seen.{marks_seen};
ghost use Rattle.book.specs.Batches.{marked, admitted};
ghost use Rattle.keeping.specs.Seen.{given_seen, batch_seen};
ghost use Rattle.grouped.specs.Accumulators.{making};
ghost use Rattle.grouped.specs.Walk.{Unmarked, BestOfAll, TakesAll, Leads, Outranks, Chooses};

use crate::FirstLastGroupsAccumulator;
use crate::extremes::Extremes;
use column::BoolColumn;
use keeping::{Batch, Given};
use tables::{Leading, RowOrder, ValueState};

// Whether the filter, if there is one, lets a row through: it is true and not null there.
#[inline]
fn passes(filter: Option<BoolColumn>, row: usize) -> bool
    ensures { result ≡ marked (marks_seen filter.entry) row }
{
    match filter {
        None => true,
        Some(flags) => flags.is_true(row),
    }
}

impl<S: ValueState, O: RowOrder> FirstLastGroupsAccumulator<S, O> {
    // Whether the filter and the null policy admit a row.
    #[inline]
    fn admits(&self, batch: &Batch, row: usize) -> bool
        ensures { result ≡ admitted (making self.now) (batch_seen batch.now).columns (marks_seen batch.now.filter) row }
    {
        passes(batch.filter, row) && self.kept.admits(&batch.columns.value, row)
    }

    // Whether every row of a batch is admitted: no filter is given and no value is left out.
    #[inline]
    fn admits_all(&self, batch: &Batch) -> bool
        ensures { IsTrue result → (r : ℕ) → admitted (making self.now) (batch_seen batch.now).columns (marks_seen batch.now.filter) r ≡ true }
    {
        batch.filter.is_none() && !self.kept.ignore_nulls
    }

    // Whether a row outranks the row that is marked for its group, if one is.
    #[inline]
    fn outranks_marked(&self, given: &Given, row: usize, marked: Option<usize>) -> bool
        ensures { Outranks self.now (given_seen given.now) row marked result }
    {
        match marked {
            None => true,
            Some(marked) => self.kept.compare(given, row, marked).is_lt(),
        }
    }

    // The same by the leading column, without a branch: where none is marked the row is compared with itself.
    #[inline(always)]
    fn outranks_by(
        &self,
        leading: &Leading,
        given: &Given,
        row: usize,
        marked: Option<usize>,
    ) -> bool
        ensures { Leads self.now.kept (given_seen given.now) leading.now → Outranks self.now (given_seen given.now) row marked result }
    {
        let other = marked.unwrap_or(row);
        marked.is_none() | self.kept.compare_by(leading, given, row, other).is_lt()
    }

    // Marks for each group the winner among its admitted rows, where none was marked. A row is marked, or the marked one again, without a branch: mispredicted ones cost the most here.
    #[inline]
    fn mark_winners<F: Fn(usize, Option<usize>) -> bool>(
        &self,
        batch: &Batch,
        best: &mut Extremes,
        chooses: F,
    )
        requires callable { F.IsAlwaysCallable chooses }
        requires chosen { (r : ℕ) (o : Option ℕ) (t : Bool) → F.post chooses r o t → Chooses self.now (batch_seen batch.now) (marks_seen batch.now.filter) r o t }
        requires taken { TakesAll self.now (batch_seen batch.now) }
        requires within { (k : ℕ) → k < length batch.now.indices.now → slice_index batch.now.indices.now k < 256 }
        requires none { Unmarked best.old }
        ensures { BestOfAll self.now (batch_seen batch.now) (marks_seen batch.now.filter) best.new }
    {
        for (row, group) in batch.indices.iter().enumerate() {
            let marked = best.row(*group);
            let better = if chooses(row, marked) {
                Some(row)
            } else {
                marked
            };
            best.mark(*group, better);
        }
    }

    // The same, rows compared by their keys, which may cost: a row that is not admitted is not compared.
    fn mark_by_keys(&self, batch: &Batch, best: &mut Extremes)
        requires taken { TakesAll self.now (batch_seen batch.now) }
        requires within { (k : ℕ) → k < length batch.now.indices.now → slice_index batch.now.indices.now k < 256 }
        requires none { Unmarked best.old }
        ensures { BestOfAll self.now (batch_seen batch.now) (marks_seen batch.now.filter) best.new }
    {
        if self.admits_all(batch) {
            let chooses = |row: usize, marked: Option<usize>| -> bool
                ensures { Outranks self.entry.now (batch_seen batch.entry.now).columns row marked result }
            { self.outranks_marked(&batch.columns, row, marked) };
            self.mark_winners(batch, best, chooses);
        } else {
            let chooses_admitted = |row: usize, marked: Option<usize>| -> bool
                ensures { Chooses self.entry.now (batch_seen batch.entry.now) (marks_seen batch.entry.now.filter) row marked result }
            { self.admits(batch, row) && self.outranks_marked(&batch.columns, row, marked) };
            self.mark_winners(batch, best, chooses_admitted);
        }
    }

    // The same, rows compared by the leading column without a branch. Still a row that is not admitted is not compared: a filter that seldom holds would else cost as much as none.
    fn mark_by_leading(&self, leading: Leading, batch: &Batch, best: &mut Extremes)
        requires leads { Leads self.now.kept (batch_seen batch.now).columns leading }
        requires taken { TakesAll self.now (batch_seen batch.now) }
        requires within { (k : ℕ) → k < length batch.now.indices.now → slice_index batch.now.indices.now k < 256 }
        requires none { Unmarked best.old }
        ensures { BestOfAll self.now (batch_seen batch.now) (marks_seen batch.now.filter) best.new }
    {
        if self.admits_all(batch) {
            let chooses = |row: usize, marked: Option<usize>| -> bool
                ensures { Leads self.entry.now.kept (batch_seen batch.entry.now).columns leading.entry → Outranks self.entry.now (batch_seen batch.entry.now).columns row marked result }
            { self.outranks_by(&leading, &batch.columns, row, marked) };
            self.mark_winners(batch, best, chooses);
        } else {
            let chooses_admitted = |row: usize, marked: Option<usize>| -> bool
                ensures { Leads self.entry.now.kept (batch_seen batch.entry.now).columns leading.entry → Chooses self.entry.now (batch_seen batch.entry.now) (marks_seen batch.entry.now.filter) row marked result }
            { self.admits(batch, row) && self.outranks_by(&leading, &batch.columns, row, marked) };
            self.mark_winners(batch, best, chooses_admitted);
        }
    }

    // The same: the original's `get_filtered_extreme_of_each_group`.
    pub(crate) fn get_filtered_extreme_of_each_group(&self, batch: &Batch, best: &mut Extremes)
        requires taken { TakesAll self.now (batch_seen batch.now) }
        requires within { (k : ℕ) → k < length batch.now.indices.now → slice_index batch.now.indices.now k < 256 }
        requires none { Unmarked best.old }
        ensures { BestOfAll self.now (batch_seen batch.now) (marks_seen batch.now.filter) best.new }
    {
        match self.kept.leading(&batch.columns) {
            Some(leading) => self.mark_by_leading(leading, batch, best),
            None => self.mark_by_keys(batch, best),
        }
    }
}
