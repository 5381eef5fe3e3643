//! The row that a batch puts up.
ghost use Rattle.std.specs.Prelude.{◌≡◌, ℕ, ◌<◌, Bool, None};
ghost use Rattle.column.specs.Seen.{marks_seen};
ghost use Rattle.book.specs.Batches as Batches;
ghost use Rattle.book.specs.Winners.{Row};
ghost use Rattle.keeping.specs.Keepers.{Takes, Ranks};
ghost use Rattle.keeping.specs.Seen.{given_seen};
ghost use Rattle.ungrouped.specs.Accumulators.{alone};
ghost use Rattle.ungrouped.specs.Found.{TestsBy, RanksBy, outermost_top, Found};
ghost use Rattle.ungrouped.specs.Held.{outdoes};
ghost use Rattle.ungrouped.specs.Rows.{outermost, picked, counts};

use crate::ends::{first_row, last_row};
use crate::single::Single;
use column::BoolColumn;
use keeping::Given;
use std::cmp::Ordering;
use tables::{RowOrder, ValueState};

impl<S: ValueState, O: RowOrder> Single<S, O> {
    // Whether a row that stands so to another outdoes it; a tie does where `ties` count, for LAST.
    #[inline]
    pub(crate) fn is_outdone(&self, verdict: Ordering, ties: bool) -> bool
        ensures { (new old : Row) → Ranks (alone self.now).making new old verdict → result ≡ outdoes (alone self.now).making ties new old }
    {
        if ties && !self.keeper.pick_first {
            verdict.is_le()
        } else {
            verdict.is_lt()
        }
    }

    // Of the rows that pass a test the earliest for FIRST, for LAST the latest, that no other of them beats by a comparison. A row that does not pass is compared too, since a choice costs less than a branch.
    #[inline]
    fn best_row<F: Fn(usize) -> bool, C: Fn(usize, usize) -> Ordering>(
        &self,
        rows: usize,
        test: F,
        compare: C,
    ) -> Option<usize>
        requires tested { (r : ℕ) → F.pre test r }
        requires compared { (a b : ℕ) → C.pre compare a b }
        ensures { (p : ℕ → Bool) (g : Batches.Given) → TestsBy (F.post test) p → RanksBy (C.post compare) (alone self.now).making g rows → Found (outermost_top (alone self.now).making) p g rows result }
    {
        let mut best = first_row(rows, &test)?;
        for row in best + 1..rows {
            let taken = test(row) & self.is_outdone(compare(row, best), true);
            best = if taken { row } else { best };
        }
        Some(best)
    }

    // The same of a batch, by the order's leading column where it has one.
    fn top_row<F: Fn(usize) -> bool>(&self, given: &Given, test: F) -> Option<usize>
        requires taken { (r : ℕ) → r < given.now.value.rows → Takes self.now.keeper (given_seen given.now) r }
        requires tested { (r : ℕ) → F.pre test r }
        ensures { (p : ℕ → Bool) → TestsBy (F.post test) p → Found (outermost_top (alone self.now).making) p (given_seen given.now) given.now.value.rows result }
    {
        let rows = given.value.rows;
        let keeper = &self.keeper;
        match keeper.leading(given) {
            Some(leading) => {
                self.best_row(rows, test, |a, b| keeper.compare_by(&leading, given, a, b))
            }
            None => self.best_row(rows, test, |a, b| keeper.compare(given, a, b)),
        }
    }

    // Of the rows that pass a test the first for FIRST, the last for LAST.
    fn end_row<F: Fn(usize) -> bool>(&self, rows: usize, test: F) -> Option<usize>
        requires { (r : ℕ) → F.pre test r }
        ensures { (p : ℕ → Bool) (g : Batches.Given) → TestsBy (F.post test) p → Found (outermost (alone self.now).making) p g rows result }
    {
        if self.keeper.pick_first {
            first_row(rows, test)
        } else {
            last_row(rows, test)
        }
    }

    // The row that an update puts up, of those that pass a test.
    #[inline]
    fn pick_row<F: Fn(usize) -> bool>(&self, given: &Given, test: F) -> Option<usize>
        requires taken { (r : ℕ) → r < given.now.value.rows → Takes self.now.keeper (given_seen given.now) r }
        requires tested { (r : ℕ) → F.pre test r }
        ensures { (p : ℕ → Bool) → TestsBy (F.post test) p → Found (picked (alone self.now) None) p (given_seen given.now) given.now.value.rows result }
    {
        if self.is_input_pre_ordered {
            self.end_row(given.value.rows, test)
        } else {
            self.top_row(given, test)
        }
    }

    // The row that a batch puts up, if any of its rows counts: in an update those that the null policy leaves, in a merge those whose flag is true.
    pub(crate) fn find_row(&self, given: &Given, flags: Option<BoolColumn>) -> Option<usize>
        requires { (r : ℕ) → r < given.now.value.rows → Takes self.now.keeper (given_seen given.now) r }
        ensures { Found (picked (alone self.now) (marks_seen flags.entry)) (counts (alone self.now).making (given_seen given.now) (marks_seen flags.entry)) (given_seen given.now) given.now.value.rows result }
    {
        match flags {
            Some(flags) => self.top_row(given, |row| flags.is_true(row)),
            None if self.keeper.ignore_nulls => {
                self.pick_row(given, |row| !given.value.is_null(row))
            }
            None => self.pick_row(given, |_| true),
        }
    }
}
