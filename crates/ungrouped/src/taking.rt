//! Batches: rows of a table, or states of other accumulators.
ghost use Rattle.std.specs.Prelude.{◌≡◌, Some, Option};
ghost use Rattle.column.specs.Seen.{marks_seen};
ghost use Rattle.book.specs.Batches.{row_at};
ghost use Rattle.keeping.specs.Keepers.{Takes};
ghost use Rattle.keeping.specs.Replies.{batch_answer, no_outputs};
ghost use Rattle.keeping.specs.Seen.{given_seen};
ghost use Rattle.ungrouped.specs.Accumulators.{alone, Stands, Obeys};
ghost use Rattle.ungrouped.specs.Calls.{batch_call};
ghost use Rattle.ungrouped.specs.Held.{Kept, origin_of, gives_way, stored};
ghost use Rattle.ungrouped.specs.Rows.{arrives};

use crate::origin::Origin;
use crate::single::Single;
use column::BoolColumn;
use faults::Fault;
use keeping::{Given, check_ungrouped};
use tables::{RowOrder, ValueState};

// Where the rows of a batch come from: a merge has flags.
fn origin(flags: Option<BoolColumn>) -> Origin
    ensures { result ≡ origin_of (marks_seen flags.entry) }
{
    match flags {
        None => Origin::Update,
        Some(_) => Origin::Merge,
    }
}

impl<S: ValueState, O: RowOrder> Single<S, O> {
    // Whether the batch's rows are said to arrive in order: a merge's are not.
    fn is_arriving(&self, flags: Option<BoolColumn>) -> bool
        ensures { result ≡ arrives (alone self.now) (marks_seen flags.entry) }
    {
        self.is_input_pre_ordered && flags.is_none()
    }

    // Whether what is held gives way to a row of the batch.
    fn is_given_way(&self, given: &Given, flags: Option<BoolColumn>, row: usize) -> bool
        requires { Takes self.now.keeper (given_seen given.now) row }
        ensures { (held : Option Kept) → Stands self.now held → result ≡ gives_way (alone self.now) (marks_seen flags.entry) (row_at (given_seen given.now) row) held }
    {
        match self.held {
            None => true,
            Some(Origin::Update) if self.is_arriving(flags) => !self.keeper.pick_first,
            Some(_) => self.is_outdone(
                self.keeper.compare_with_held(0, given, row),
                self.is_input_pre_ordered,
            ),
        }
    }

    // Holds a row of the batch where what is held gives way to it.
    fn offer(&mut self, given: &Given, flags: Option<BoolColumn>, row: usize)
        requires { Takes self.old.keeper (given_seen given.now) row }
        ensures holds { (held : Option Kept) → Stands self.old held → Stands self.new (stored (alone self.old) (marks_seen flags.entry) held (Some (row_at (given_seen given.now) row))) }
        ensures made { alone self.new ≡ alone self.old }
    {
        if self.is_given_way(given, flags, row) {
            self.keeper.put(0, given, row);
            self.held = Some(origin(flags));
        }
    }

    // Takes a batch in, an update or a merge by its flags: the row that it puts up is held where what is held gives way to it. COLS, KIND, ROWS, FLAGS, LONG.
    pub(crate) fn take_batch(
        &mut self,
        given: &Given,
        flags: Option<BoolColumn>,
    ) -> Result<(), Fault>
        ensures { Obeys self.old (batch_call (given_seen given.now) (marks_seen flags.entry)) no_outputs (record { result = batch_answer result; outputs = no_outputs }) self.new }
    {
        let keeper = &self.keeper;
        check_ungrouped(&keeper.state, &keeper.order, given, flags)?;
        if let Some(row) = self.find_row(given, flags) {
            self.offer(given, flags, row);
        }
        Ok(())
    }
}
