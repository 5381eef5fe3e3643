// TOTAL, SHRUNK and GROUP: how many groups there are, and which.
ghost use Rattle.std.specs.Prelude.{◌≡◌, [], ◌∷◌, length, nat_le, nat_lt, slice_index};
ghost use Rattle.std.specs.List.{list_any, position};
ghost use Rattle.column.specs.Columns.{count_up};
ghost use Rattle.column.specs.Faults.{fault, TOTAL, GROUP, SHRUNK, in_accumulator};
ghost use Rattle.book.specs.Declines.{at_row, total_refused};
ghost use Rattle.faults.specs.Reported.{declined_seen};

use faults::{Fault, OwnFault, Place, located, own};
use tables::check_grow;

// TOTAL, SHRUNK, where `held` groups are held.
pub(crate) fn check_total(held: usize, total: usize) -> Result<(), Fault>
    ensures { declined_seen result ≡ total_refused held total }
{
    located(check_grow(held, total), Place::Call, 0)
}

// Whether some row's group is not below the total. Without an early exit, so that several are compared at once.
fn some_past(indices: &[usize], total: usize) -> bool
    ensures { result ≡ list_any (λ group. nat_le total group) indices.now }
{
    let mut past = false;
    for row in 0..indices.len() {
        past |= indices[row] >= total;
    }
    past
}

// The first row whose group is not below the total, row by row.
fn find_past(indices: &[usize], total: usize) -> Option<usize>
    ensures { result ≡ position (λ group. nat_le total group) indices.now }
{
    indices.iter().position(|group| *group >= total)
}

// The same, so many rows at once, of which those behind the first are not gone through.
fn first_past(indices: &[usize], total: usize) -> Option<usize>
    ensures { result ≡ position (λ group. nat_le total group) indices.now }
{
    let mut from = 0;
    while indices.len() - from > 64 {
        if some_past(&indices[from..from + 64], total) {
            break;
        }
        from += 64;
    }
    let row = find_past(&indices[from..], total)?;
    Some(from + row)
}

// GROUP.
pub(crate) fn check_groups(indices: &[usize], total: usize) -> Result<(), Fault>
    ensures { declined_seen result ≡ at_row (λ r. nat_le total (slice_index indices.now r)) (λ r. fault GROUP in_accumulator 9 r) (count_up 0 (length indices.now)) }
{
    match first_past(indices, total) {
        Some(row) => Err(own(OwnFault::Group, Place::Call, row)),
        None => Ok(()),
    }
}
