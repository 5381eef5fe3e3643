// Comparing values that may be missing, by a column's sorting.
ghost use Rattle.std.specs.Prelude.{◌≡◌};
ghost use Rattle.tables.specs.Missing.{sorted_verdict};

use crate::Sorting;
use std::cmp::Ordering;

impl Sorting {
    // How one value that may be missing stands to another.
    #[inline(always)]
    pub fn compare<T: Ord + Copy>(self, a: Option<T>, b: Option<T>) -> Ordering
        ensures { result ≡ sorted_verdict T.cmp self a b }
    {
        match (a, b) {
            (Some(x), Some(y)) if self.descending => y.cmp(&x),
            (Some(x), Some(y)) => x.cmp(&y),
            _ if self.nulls_first => a.is_some().cmp(&b.is_some()),
            _ => b.is_some().cmp(&a.is_some()),
        }
    }
}
