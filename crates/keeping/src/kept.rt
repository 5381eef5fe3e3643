//! Making a keeper, and what is asked of one and done to one.
ghost use Rattle.std.specs.Prelude.{◌≡◌, ◌<◌, ◌≤◌, [], length, drop, not, ◌&&◌, if◌then◌else◌};
ghost use Rattle.std.specs.Ordering.{ordering_reverse};
ghost use Rattle.column.specs.Cells.{is_null};
ghost use Rattle.column.specs.Checks.{unless_refused};
ghost use Rattle.column.specs.Columns.{cell_at};
ghost use Rattle.column.specs.Seen.{column_seen};
ghost use Rattle.tables.specs.Meaning.{state_of};
ghost use Rattle.tables.specs.Refusals.{grown_entries};
ghost use Rattle.book.specs.Batches.{row_at};
ghost use Rattle.book.specs.Declines.{total_refused};
ghost use Rattle.faults.specs.Reported.{declined_seen};
ghost use Rattle.keeping.specs.Fronts.{too_few};
ghost use Rattle.keeping.specs.Keepers.{made_of, cells, keys, kept_row, Takes, Same, Ranks, Puts};
ghost use Rattle.keeping.specs.Seen.{given_seen};

use crate::fronts::check_held;
use crate::groups::check_total;
use crate::{Given, Keeper};
use column::Column;
use faults::Fault;
use std::cmp::Ordering;
use tables::{GroupTable, RowOrder, ValueState};

// A group table with its groups dropped.
fn emptied<T: GroupTable>(mut table: T) -> T
where
    T::Fault: Drop,
    ensures empty { T.GroupTable.entries result ≡ [] }
    ensures kept { T.GroupTable.settings result ≡ T.GroupTable.settings table }
{
    let held = table.groups();
    let _ = table.drop_first(held);
    table
}

impl<S: ValueState, O: RowOrder> Keeper<S, O> {
    /// A keeper of no group; the state and the order are emptied.
    pub fn new(state: S, order: O, pick_first: bool, ignore_nulls: bool) -> Self
        ensures values { cells result ≡ [] }
        ensures ranks { keys result ≡ [] }
        ensures made { made_of result ≡ record { state = state_of (S.GroupTable.settings state); order = O.GroupTable.settings order; first = pick_first; ignore_nulls = ignore_nulls } }
    {
        Keeper {
            state: emptied(state),
            order: emptied(order),
            pick_first,
            ignore_nulls,
        }
    }

    /// How many groups are held.
    #[inline]
    pub fn groups(&self) -> usize
        ensures { result ≡ length (cells self.now) }
    {
        self.state.groups()
    }

    /// Adds groups of nulls up to a total: TOTAL, SHRUNK.
    pub fn grow(&mut self, total: usize) -> Result<(), Fault>
        ensures answer { declined_seen result ≡ total_refused (length (cells self.old)) total }
        ensures values { cells self.new ≡ unless_refused (total_refused (length (cells self.old)) total) (grown_entries (S.GroupTable.settings self.old.state).kinds (cells self.old) total) (cells self.old) }
        ensures ranks { keys self.new ≡ unless_refused (total_refused (length (cells self.old)) total) (grown_entries (O.GroupTable.settings self.old.order).kinds (keys self.old) total) (keys self.old) }
        ensures made { Same self.old self.new }
    {
        check_total(self.groups(), total)?;
        let _ = self.state.grow(total);
        let _ = self.order.grow(total);
        Ok(())
    }

    /// Drops the first groups: FEWER.
    pub fn drop_first(&mut self, n: usize) -> Result<(), Fault>
        ensures answer { declined_seen result ≡ too_few (length (cells self.old)) n }
        ensures values { cells self.new ≡ unless_refused (too_few (length (cells self.old)) n) (drop n (cells self.old)) (cells self.old) }
        ensures ranks { keys self.new ≡ unless_refused (too_few (length (cells self.old)) n) (drop n (keys self.old)) (keys self.old) }
        ensures made { Same self.old self.new }
    {
        check_held(self.groups(), n)?;
        let _ = self.state.drop_first(n);
        let _ = self.order.drop_first(n);
        Ok(())
    }

    // The verdict of one key against another as FIRST or LAST ranks the rows.
    #[inline(always)]
    pub(crate) fn ranked(&self, verdict: Ordering) -> Ordering
        ensures { result ≡ (if self.now.pick_first then verdict else ordering_reverse verdict) }
    {
        if self.pick_first {
            verdict
        } else {
            verdict.reverse()
        }
    }

    /// How row `a` of a batch stands to row `b`: Less where it beats it, Greater where it is beaten.
    #[inline]
    pub fn compare(&self, given: &Given, a: usize, b: usize) -> Ordering
        ensures { Takes self.now (given_seen given.now) a → Takes self.now (given_seen given.now) b
            → Ranks (made_of self.now) (row_at (given_seen given.now) a) (row_at (given_seen given.now) b) result }
    {
        self.ranked(self.order.compare(given.keys(), a, b))
    }

    /// How a row of a batch stands to the row that is kept for a group: Less where it beats it, Greater where it is beaten.
    #[inline]
    pub fn compare_with_held(&self, group: usize, given: &Given, row: usize) -> Ordering
        ensures { Takes self.now (given_seen given.now) row → group < length (keys self.now)
            → Ranks (made_of self.now) (row_at (given_seen given.now) row) (kept_row self.now group) result }
    {
        self.ranked(self.order.compare_with_held(group, given.keys(), row))
    }

    /// Whether the null policy admits a row: nulls are not left out, or its value is not null.
    #[inline]
    pub fn admits(&self, value: &Column, row: usize) -> bool
        ensures { result ≡ not (self.now.ignore_nulls && is_null (cell_at (column_seen value.now) row)) }
    {
        !(self.ignore_nulls && value.is_null(row))
    }

    /// Keeps a row of a batch for a group.
    #[inline]
    pub fn put(&mut self, group: usize, given: &Given, row: usize)
        ensures puts { Takes self.old (given_seen given.now) row → Puts self.old group (row_at (given_seen given.now) row) self.new }
        ensures held { length (cells self.new) ≡ length (cells self.old) }
        ensures made { Same self.old self.new }
    {
        self.state.put_cell(group, &given.value, row);
        self.order.put_key(group, given.keys(), row);
    }
}
