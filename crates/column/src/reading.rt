// Reading a column's cells, whatever its parts are.
ghost use Rattle.std.specs.Prelude.{◌≡◌, ◌+◌, ◌<◌, ◌≤◌, length};
ghost use Rattle.std.specs.Option.{option_map};
ghost use Rattle.column.specs.Cells.{is_null};
ghost use Rattle.column.specs.Columns.{number_at, text_at, fields_at, field_in, cell_at, flag_at, true_at};
ghost use Rattle.column.specs.Seen.{column_seen, flags_seen};

use crate::bits::{bit, number, valid};
use crate::{BoolColumn, Column, Kind};

impl<'a> Column<'a> {
    /// The number in row `r`, read as in a column of numbers; none where it is null.
    #[inline]
    pub fn number(&self, r: usize) -> Option<i64>
        ensures { result ≡ number_at (column_seen self.now) r }
    {
        if r < self.data.len() / 8 && valid(self.validity, r) {
            Some(number(self.data, 8 * r))
        } else {
            None
        }
    }

    /// The byte string in row `r`, read as in a column of byte strings; none where it is null.
    #[inline]
    pub fn bytes(&self, r: usize) -> Option<&'a [u8]>
        ensures { option_map (λ x. x.now) result ≡ text_at (column_seen self.now) r }
    {
        if r >= self.offsets.len() || r + 1 >= self.offsets.len() || !valid(self.validity, r) {
            return None;
        }
        let from = self.offsets[r] as usize;
        let to = self.offsets[r + 1] as usize;
        if from <= to && to <= self.data.len() {
            Some(&self.data[from..to])
        } else {
            None
        }
    }

    // Field `j` of the record whose bytes begin at `at`, if it is present.
    #[inline]
    fn field(&self, at: usize, j: usize) -> Option<i64>
        requires { (at + 25 ≤ length self.now.«data».now) × (j < 3) }
        ensures { result ≡ field_in self.now.«data».now at j }
    {
        if bit(&self.data[at..at + 1], j) {
            Some(number(self.data, at + 1 + 8 * j))
        } else {
            None
        }
    }

    /// The three fields of the record in row `r`, read as in a column of records; none where it is null.
    #[inline]
    pub fn fields(&self, r: usize) -> Option<[Option<i64>; 3]>
        ensures { result ≡ fields_at (column_seen self.now) r }
    {
        if r < self.data.len() / 25 && valid(self.validity, r) {
            let at = 25 * r;
            Some([self.field(at, 0), self.field(at, 1), self.field(at, 2)])
        } else {
            None
        }
    }

    /// Whether the cell in row `r` is null.
    #[inline]
    pub fn is_null(&self, r: usize) -> bool
        ensures { result ≡ is_null (cell_at (column_seen self.now) r) }
    {
        match self.kind {
            Kind::Number => self.number(r).is_none(),
            Kind::Bytes => self.bytes(r).is_none(),
            Kind::Record => self.fields(r).is_none(),
        }
    }
}

impl<'a> BoolColumn<'a> {
    /// The truth value in row `r`; none where it is null.
    #[inline]
    pub fn value(&self, r: usize) -> Option<bool>
        ensures { result ≡ flag_at (flags_seen self.now) r }
    {
        if valid(self.validity, r) {
            Some(bit(self.bits, r))
        } else {
            None
        }
    }

    /// Whether row `r` is true and not null.
    #[inline]
    pub fn is_true(&self, r: usize) -> bool
        ensures { result ≡ true_at (flags_seen self.now) r }
    {
        valid(self.validity, r) && bit(self.bits, r)
    }
}
