// Whether two held rows agree, cell by cell.
ghost use Rattle.std.specs.Bool.{Decides};
ghost use Rattle.column.specs.Views.{answer_seen};
ghost use Rattle.keeping.specs.Keepers.{AnsweredAlike, SameValue, SameKeyCell, SameKey, Agree};

use crate::Keeper;
use column::CellView;
use tables::{RowOrder, ValueState};

// Whether two questions are answered, and by the same cell.
#[inline]
fn answered_alike<F: Drop>(a: Result<CellView, F>, b: Result<CellView, F>) -> bool
    ensures { Decides result (AnsweredAlike (answer_seen a.entry) (answer_seen b.entry)) }
{
    match (a, b) {
        (Ok(a), Ok(b)) => a.is_same(&b),
        _ => false,
    }
}

impl<S: ValueState, O: RowOrder> Keeper<S, O> {
    // Whether both groups are held with the same value.
    fn same_value(&self, group: usize, other: &Self, at: usize) -> bool
        ensures { Decides result (SameValue self.now group other.now at) }
    {
        answered_alike(self.state.cell(group), other.state.cell(at))
    }

    // Whether both groups are held, and show the same cell in a key column that both read.
    fn same_key_cell(&self, named: usize, group: usize, other: &Self, at: usize) -> bool
        ensures { Decides result (SameKeyCell named self.now group other.now at) }
    {
        answered_alike(
            self.order.key_cell(named, group),
            other.order.key_cell(named, at),
        )
    }

    // Whether both read as many key columns, and show the same cell in each of them.
    fn same_key(&self, group: usize, other: &Self, at: usize) -> bool
        ensures { Decides result (SameKey self.now group other.now at) }
    {
        let columns = self.order.columns();
        if columns != other.order.columns() {
            return false;
        }
        for named in 0..columns {
            if !self.same_key_cell(named, group, other, at) {
                return false;
            }
        }
        true
    }

    /// Whether the rows that two keepers keep for a group of each agree, in the value and in each key column; false where a group is not held, or where one reads more key columns than the other.
    pub fn same_row(&self, group: usize, other: &Self, at: usize) -> bool
        ensures { Decides result (Agree self.now group other.now at) }
    {
        self.same_value(group, other, at) && self.same_key(group, other, at)
    }
}
