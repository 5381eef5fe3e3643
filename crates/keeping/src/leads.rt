//! Comparing rows by the column that tells most of them apart.
ghost use Rattle.std.specs.Prelude.{◌≡◌, IfSome};
ghost use Rattle.tables.specs.Leading.{LeadsIn};
ghost use Rattle.tables.specs.Reading.{key_read};
ghost use Rattle.tables.specs.Refusals.{verdict};
ghost use Rattle.book.specs.Batches.{order_columns, row_at};
ghost use Rattle.keeping.specs.Keepers.{made_of, Takes, Ranks};
ghost use Rattle.keeping.specs.Seen.{given_seen};

use crate::{Given, Keeper};
use std::cmp::Ordering;
use tables::{Leading, RowOrder, ValueState};

impl<S: ValueState, O: RowOrder> Keeper<S, O> {
    /// The column of numbers by which rows are compared first, if the order has one that is worth a walk of its own.
    #[inline]
    pub fn leading<'keys>(&self, given: &Given<'_, 'keys>) -> Option<Leading<'keys>>
        ensures { IfSome result (LeadsIn (O.GroupTable.settings self.now.order) (order_columns (given_seen given.now))) }
    {
        self.order.leading(given.keys())
    }

    // The order's verdict of row `a` against row `b`: the leading column's where it tells them apart, or where no other column is read.
    #[inline(always)]
    fn verdict_by(&self, leading: &Leading, given: &Given, a: usize, b: usize) -> Ordering
        ensures { LeadsIn (O.GroupTable.settings self.now.order) (order_columns (given_seen given.now)) leading.now
            → result ≡ verdict (O.GroupTable.settings self.now.order) (key_read (O.GroupTable.settings self.now.order).kinds (order_columns (given_seen given.now)) a) (key_read (O.GroupTable.settings self.now.order).kinds (order_columns (given_seen given.now)) b) }
    {
        let verdict = leading.compare(a, b);
        if leading.decides {
            return verdict;
        }
        if verdict != Ordering::Equal {
            return verdict;
        }
        self.order.compare(given.keys(), a, b)
    }

    /// How row `a` of a batch stands to row `b`, by the leading column where it tells them apart: Less where it beats it, Greater where it is beaten.
    #[inline(always)]
    pub fn compare_by(&self, leading: &Leading, given: &Given, a: usize, b: usize) -> Ordering
        ensures { LeadsIn (O.GroupTable.settings self.now.order) (order_columns (given_seen given.now)) leading.now
            → Takes self.now (given_seen given.now) a → Takes self.now (given_seen given.now) b
            → Ranks (made_of self.now) (row_at (given_seen given.now) a) (row_at (given_seen given.now) b) result }
    {
        self.ranked(self.verdict_by(leading, given, a, b))
    }
}
