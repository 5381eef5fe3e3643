//! The rows that a batch marks, one for each group that has an admitted row.
ghost use Rattle.std.specs.Prelude.{◌≡◌, ◌<◌, length, slice_set};
ghost use Rattle.std.specs.Option.{option_map};

/// The best admitted row of each marked group, while a batch is walked through: the original's `extreme_of_each_group_buf`.
#[derive(Drop)]
pub(crate) struct Extremes {
    rows: [Option<usize>; 256],
    // Behind a reference the length of an array is not known without this.
    ghost places: { length rows ≡ 256 },
}

impl Extremes {
    ghost use Rattle.grouped.specs.Walk.{row_of, Unmarked};

    // No group is marked.
    #[inline]
    pub(crate) fn none() -> Extremes
        ensures { Unmarked result }
    {
        Extremes { rows: [None; 256] }
    }

    // The row that is marked for a group.
    #[inline]
    pub(crate) fn row(&self, group: usize) -> Option<usize>
        requires { group < 256 }
        ensures { result ≡ row_of self.now group }
    {
        self.rows[group]
    }

    // The group's number and its row, where one is marked.
    #[inline]
    pub(crate) fn pair(&self, group: usize) -> Option<(usize, usize)>
        requires { group < 256 }
        ensures { result ≡ option_map (λ r. (group, r)) (row_of self.now group) }
    {
        let row = self.row(group)?;
        Some((group, row))
    }

    // Marks a row for a group, or none.
    #[inline]
    pub(crate) fn mark(&mut self, group: usize, row: Option<usize>)
        requires { group < 256 }
        ensures { self.new.rows ≡ slice_set self.old.rows group row }
    {
        let marked = &mut self.rows[group];
        *marked = row;
    }
}
