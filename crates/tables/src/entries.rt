//! A fixed table of entries.
ghost use Rattle.std.specs.Prelude.{◌≡◌, ◌+◌, ◌-◌, ◌≤◌, [], ◌++◌, length, take, drop, replicate, slice_get, slice_set};
ghost use Rattle.std.specs.Option.{option_map};
ghost use Rattle.column.specs.Checks.{outcome, unless_refused};
ghost use Rattle.tables.specs.Refusals.{growing, dropping};

use crate::TableFault;
use crate::checks::{check_drop, check_grow};
use std::marker::Model;

/// Up to 256 entries, one for each held group, in fixed memory: an array, of which `len` places from `start` on are in use.
///
/// So dropping the first entries moves none; growing moves them to the front only where there is no room behind them.
#[derive(Drop)]
pub struct Entries<T> {
    table: [T; 256],
    start: usize,
    len: usize,
}

// Clauses see the held entries.
impl<T> Model for Entries<T> {
    ghost use Rattle.std.specs.Prelude.{◌≡◌, ◌+◌, ◌≤◌, List, length, take, drop};

    ghost Value = { List T };

    ghost view = { λ e. take e.len (drop e.start e.table) };

    ghost invariant = { λ e. (length e.table ≡ 256) × (e.start + e.len ≤ 256) };
}

// Writes a value over each place.
// By a loop, since `fill` asks that a clone cannot fail, which no contract says of a type that is only Copy.
#[inline]
fn overwrite<T: Copy>(places: &mut [T], value: T)
    ensures { places.new ≡ replicate (length places.old) value }
{
    for place in places.iter_mut() {
        *place = value;
    }
}

// Where `held` entries begin once there is room for a total of them: at the front, to which they are moved, if there is none behind where they are.
fn with_room<T: Copy>(table: &mut [T], start: usize, held: usize, total: usize) -> usize
    requires whole { length table.old ≡ 256 }
    requires within { start + held ≤ 256 }
    requires few { total ≤ 256 }
    ensures whole { length table.new ≡ 256 }
    ensures kept { take held (drop result table.new) ≡ take held (drop start table.old) }
    ensures room { result + total ≤ 256 }
{
    if start + total <= 256 {
        return start;
    }
    table.copy_within(start..start + held, 0);
    0
}

impl<T: Copy> Entries<T> {
    /// No entry; `fill` is what the unused places hold.
    #[inline]
    pub fn new(fill: T) -> Entries<T>
        ensures { result ≡ [] }
    {
        Entries {
            table: [fill; 256],
            start: 0,
            len: 0,
        }
    }

    /// How many entries are held.
    #[inline]
    pub fn len(&self) -> usize
        ensures held { result ≡ length self.now }
        ensures few { result ≤ 256 }
    {
        self.as_slice().len()
    }

    /// The held entries.
    #[inline]
    pub fn as_slice(&self) -> &[T]
        ensures held { result.now ≡ self.now }
        ensures few { length self.now ≤ 256 }
    {
        let table = &self.table[..];
        &table[self.start..self.start + self.len]
    }

    /// One held entry; none past the last.
    #[inline]
    pub fn get(&self, i: usize) -> Option<&T>
        ensures { option_map (λ x. x.now) result ≡ slice_get self.now i }
    {
        self.as_slice().get(i)
    }

    /// Sets one held entry; there is none past the last.
    #[inline]
    pub fn set(&mut self, i: usize, entry: T)
        ensures { self.new ≡ slice_set self.old i entry }
    {
        if i < self.len {
            let place = &mut self.table[self.start + i];
            *place = entry;
        }
    }

    /// Adds entries up to the total: TOTAL, SHRUNK.
    pub fn grow(&mut self, total: usize, fill: T) -> Result<(), TableFault>
        ensures answer { result ≡ outcome (growing (length self.old) total) tt }
        ensures after { self.new ≡ unless_refused (growing (length self.old) total) (self.old ++ replicate (total - length self.old) fill) self.old }
    {
        let held = self.len;
        check_grow(held, total)?;
        let table = &mut self.table[..];
        let start = with_room(table, self.start, held, total);
        overwrite(&mut table[start + held..start + total], fill);
        self.start = start;
        self.len = total;
        Ok(())
    }

    /// Drops the first `n` entries: FEWER.
    #[inline]
    pub fn drop_first(&mut self, n: usize) -> Result<(), TableFault>
        ensures answer { result ≡ outcome (dropping (length self.old) n) tt }
        ensures after { self.new ≡ unless_refused (dropping (length self.old) n) (drop n self.old) self.old }
    {
        check_drop(self.len, n)?;
        self.start += n;
        self.len -= n;
        Ok(())
    }
}
