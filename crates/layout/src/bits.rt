// Truth values as bits, eight to a byte.
ghost use Rattle.std.specs.Prelude.{◌≡◌, ℕ, ◌+◌, ◌/◌, ◌^◌, ◌<◌, ◌≤◌, Bool, false, List, length, slice_index_or};
ghost use Rattle.layout.specs.Layout.{binary, packed, over};

// The bits of `count` rows from `start` on, the lowest first.
#[inline]
fn byte<F: Fn(usize) -> bool>(start: usize, count: usize, holds: &F) -> u8
    requires rows { (count ≤ 8) × (start + count < 2 ^ 64) }
    requires callable { (i : ℕ) → i < count → F.pre holds.now (start + i) }
    ensures { (bs : List Bool) × (length bs ≡ count) × ((i : ℕ) → i < count → F.post holds.now (start + i) (slice_index_or bs i false)) × (result ≡ binary bs) }
{
    let mut byte = 0;
    for i in 0..count {
        byte += u8::from(holds(start + i)) << i;
    }
    byte
}

// Writes a bit for each row, 1 where `holds` says so.
#[inline]
pub(crate) fn put_bits<F: Fn(usize) -> bool>(out: &mut [u8], rows: usize, holds: F)
    requires room { (rows + 7) / 8 ≤ length out.old }
    requires callable { (k : ℕ) → k < rows → F.pre holds k }
    ensures { (bs : List Bool) × (length bs ≡ rows) × ((k : ℕ) → k < rows → F.post holds k (slice_index_or bs k false)) × (out.new ≡ over (packed bs) out.old) }
{
    for j in 0..rows / 8 {
        out[j] = byte(8 * j, 8, &holds);
    }
    let last = rows % 8;
    if last > 0 {
        out[rows / 8] = byte(rows - last, last, &holds);
    }
}
