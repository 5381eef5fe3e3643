// The checks of a call, one after the other. The state and the order are two parameters: a struct of two references, made for one call and taken apart in it, is no plainer.
ghost use Rattle.std.specs.Prelude.{◌≡◌, Bool, [], ◌∷◌};
ghost use Rattle.column.specs.Checks.{first_of};
ghost use Rattle.column.specs.Seen.{marks_seen};
ghost use Rattle.tables.specs.Meaning.{Settings};
ghost use Rattle.book.specs.Declines.{cols, rows, batch_declined, ungrouped_declined};
ghost use Rattle.faults.specs.Reported.{declined_seen};
ghost use Rattle.keeping.specs.Seen.{given_seen, batch_seen, made_with};

use crate::groups::{check_groups, check_total};
use crate::kinds::{check_cols, check_kinds};
use crate::marks::check_flags;
use crate::rows::{check_rows, same_rows};
use crate::taken::check_long;
use crate::{Batch, Given};
use column::BoolColumn;
use faults::{Fault, Place};
use tables::{RowOrder, ValueState};

/// All checks of a batch, where `held` groups are held: COLS, KIND, ROWS, TOTAL, SHRUNK, GROUP, LONG.
pub fn check_batch<S: ValueState, O: RowOrder>(
    state: &S,
    order: &O,
    held: usize,
    batch: &Batch,
) -> Result<(), Fault>
    ensures { (first nulls : Bool) → declined_seen result ≡ batch_declined (made_with (S.GroupTable.settings state.now) (O.GroupTable.settings order.now) first nulls) held (batch_seen batch.now) (marks_seen batch.now.filter) }
{
    let given = &batch.columns;
    check_cols(order, given)?;
    check_kinds(state, order, given)?;
    check_rows(given, batch.filter)?;
    same_rows(batch.indices.len(), given.value.rows, Place::Call)?;
    check_total(held, batch.total)?;
    check_groups(batch.indices, batch.total)?;
    check_long(state, order, given)
}

/// As many order columns as the order reads, all as long as the value column, and so the filter: COLS, ROWS.
pub fn check_columns<O: RowOrder>(
    order: &O,
    given: &Given,
    filter: Option<BoolColumn>,
) -> Result<(), Fault>
    ensures { (s : Settings) (first nulls : Bool) → declined_seen result ≡ first_of (cols (made_with s (O.GroupTable.settings order.now) first nulls) (given_seen given.now) ∷ (rows (given_seen given.now) (marks_seen filter.entry) ∷ [])) }
{
    check_cols(order, given)?;
    check_rows(given, filter)
}

/// All checks of a batch without groups: COLS, KIND, ROWS, in a merge FLAGS, LONG.
pub fn check_ungrouped<S: ValueState, O: RowOrder>(
    state: &S,
    order: &O,
    given: &Given,
    flags: Option<BoolColumn>,
) -> Result<(), Fault>
    ensures { (first nulls : Bool) → declined_seen result ≡ ungrouped_declined (made_with (S.GroupTable.settings state.now) (O.GroupTable.settings order.now) first nulls) (given_seen given.now) (marks_seen flags.entry) }
{
    check_cols(order, given)?;
    check_kinds(state, order, given)?;
    check_rows(given, flags)?;
    check_flags(given, flags)?;
    check_long(state, order, given)
}
