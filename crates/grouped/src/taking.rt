//! Taking a batch's winners in, group by group.
ghost use Rattle.std.specs.Prelude.{◌≡◌, ℕ, ◌<◌, ◌≤◌, List, length, Some};
ghost use Rattle.column.specs.Seen.{marks_seen};
ghost use Rattle.book.specs.Batches.{Book, grown, row_at};
ghost use Rattle.book.specs.Winners.{Row, winner};
ghost use Rattle.keeping.specs.Keepers.{Takes, Same};
ghost use Rattle.keeping.specs.Seen.{given_seen, batch_seen};
ghost use Rattle.grouped.specs.Accumulators.{held, making, winner_held, Keeps};
ghost use Rattle.grouped.specs.Walk.{row_of, outranks, brought, Best, BestOfAll, TakesAll, Gains, GotBelow};

use crate::FirstLastGroupsAccumulator;
use crate::extremes::Extremes;
use keeping::{Batch, Given};
use tables::{RowOrder, ValueState};

// How an accumulator was made is a fact of it before and after a call, so no invariant can say that it stays: clauses say it by `Same`.
impl<S: ValueState, O: RowOrder> FirstLastGroupsAccumulator<S, O> {
    // Adds unset groups up to the total.
    pub(crate) fn grow(&mut self, total: usize)
        requires more { self.old.slots.len ≤ total }
        requires room { total ≤ 256 }
        ensures keeps { (b : Book) → Keeps self.old b → Keeps self.new (grown b total) }
        ensures many { self.new.slots.len ≡ total }
        ensures made { Same self.old.kept self.new.kept }
    {
        let _ = self.kept.grow(total);
        self.slots.grow(total);
    }

    // Whether a row outranks what its group holds: the original's `should_update_state`.
    #[inline]
    fn outranks_held(&self, given: &Given, group: usize, row: usize) -> bool
        requires taken { Takes self.now.kept (given_seen given.now) row }
        requires within { group < self.now.slots.len }
        ensures { result ≡ outranks (making self.now) (row_at (given_seen given.now) row) (winner_held (held self.now) group) }
    {
        !self.slots.is_set(group) || self.kept.compare_with_held(group, given, row).is_lt()
    }

    // Takes the winner of a group's new rows in, where it outranks what the group holds.
    #[inline]
    fn take_winner(&mut self, given: &Given, group: usize, row: usize)
        requires taken { Takes self.old.kept (given_seen given.now) row }
        requires within { group < self.old.slots.len }
        ensures gains { (rows : List Row) → winner (making self.old) rows ≡ Some (row_at (given_seen given.now) row) → Gains self.old group rows self.new }
        ensures many { self.new.slots.len ≡ self.old.slots.len }
        ensures made { Same self.old.kept self.new.kept }
    {
        if self.outranks_held(given, group, row) {
            self.kept.put(group, given, row);
            self.slots.set(group);
        }
    }

    // Takes in what a batch brought to one group, of which the winner is marked, if there is one.
    #[inline]
    fn take_group(&mut self, batch: &Batch, best: &Extremes, g: usize)
        requires taken { TakesAll self.old (batch_seen batch.now) }
        requires within { g < self.old.slots.len }
        requires best { Best (making self.old) (batch_seen batch.now) (marks_seen batch.now.filter) g (length batch.now.indices.now) (row_of best.now g) }
        ensures gains { Gains self.old g (brought (making self.old) (batch_seen batch.now) (marks_seen batch.now.filter) g (length batch.now.indices.now)) self.new }
        ensures many { self.new.slots.len ≡ self.old.slots.len }
        ensures made { Same self.old.kept self.new.kept }
    {
        if let Some((group, row)) = best.pair(g) {
            self.take_winner(&batch.columns, group, row);
        }
    }

    // Takes in what a batch brought to the groups below its total, rising by group.
    pub(crate) fn take_winners(&mut self, batch: &Batch, best: &Extremes)
        requires taken { TakesAll self.old (batch_seen batch.now) }
        requires within { batch.now.total ≤ self.old.slots.len }
        requires best { BestOfAll self.old (batch_seen batch.now) (marks_seen batch.now.filter) best.now }
        ensures keeps { (before after : Book) → Keeps self.old before → GotBelow (making self.old) (batch_seen batch.now) (marks_seen batch.now.filter) batch.now.total before after → Keeps self.new after }
        ensures made { Same self.old.kept self.new.kept }
    {
        for g in 0..batch.total {
            self.take_group(batch, best, g);
        }
    }
}
