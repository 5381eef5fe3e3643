// The first refusal, column by column.
ghost use Rattle.std.specs.Prelude.{◌≡◌, ℕ, ◌<◌, Some, Option, Result, take, slice_get};
ghost use Rattle.column.specs.Columns as Columns;
ghost use Rattle.column.specs.Faults as Faults;
ghost use Rattle.book.specs.Batches.{order_columns};
ghost use Rattle.book.specs.Declines.{at_column};
ghost use Rattle.faults.specs.Reported.{declined_seen};
ghost use Rattle.keeping.specs.Seen.{given_seen, FindsAtColumn};

use crate::Given;
use column::Column;
use faults::Fault;

impl<'keys> Given<'_, 'keys> {
    // The order columns that are given.
    #[inline]
    pub(crate) fn keys(&self) -> &[Column<'keys>]
        ensures { result.now ≡ take self.now.count self.now.orders }
    {
        &self.orders[..self.count.min(3)]
    }
}

// The refusal of a check in the first order column that it declines; columns are numbered from 0.
pub(crate) fn at_column<'keys, F: Fn(usize, Column<'keys>) -> Result<(), Fault>>(
    given: &Given<'_, 'keys>,
    check: F,
) -> Result<(), Fault>
    requires { (j : ℕ) (c : _) → j < given.now.count → slice_get given.now.orders j ≡ Some c → F.pre check j c }
    ensures { (finds : ℕ → Columns.Column → Option Faults.Fault) → FindsAtColumn (F.post check) finds → declined_seen result ≡ at_column finds 0 (order_columns (given_seen given.now)) }
{
    for (j, column) in given.keys().iter().enumerate() {
        check(j, *column)?;
    }
    Ok(())
}
