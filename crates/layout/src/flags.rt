// Columns of truth values.
ghost use Rattle.std.specs.Prelude.{◌≡◌, ℕ, ◌+◌, ◌*◌, ◌/◌, ◌^◌, ◌<◌, ◌≤◌, Bool, not, map, length, if◌then◌else◌, Option};
ghost use Rattle.column.specs.Columns.{count_up};
ghost use Rattle.column.specs.Checks.{outcome, refuse};
ghost use Rattle.layout.specs.declared.OutputFault.TheVariants as output;
ghost use Rattle.layout.specs.Layout.{packed, known, holds, over, fits_flags, written_flags};
ghost use Rattle.layout.specs.Written.{eight, flags_laid, flag_parts_seen, flag_room};

use crate::{FlagOutput, OutputFault};

/// Truth values by row, each of which may be missing.
pub trait FlagSource {
    ghost shows: { Self → ℕ → Option Bool };

    /// The truth value of a row; none where it is missing.
    fn flag(&self, row: usize) -> Option<bool>
        ensures { result ≡ shows self.now row };

    /// Which of the rows 8 j to 8 j + 7 are not missing, as the bits of a byte, the lowest first.
    fn known_byte(&self, j: usize) -> u8
        ensures { 8 * j + 7 < 2 ^ 64 → result ≡ eight (λ r. known (shows self.now r)) j }
    {
        let mut byte = 0;
        for i in 0..8 {
            let row = j.wrapping_mul(8).wrapping_add(i);
            byte += u8::from(self.flag(row).is_some()) << i;
        }
        byte
    }

    /// Which of the rows 8 j to 8 j + 7 are true, as the bits of a byte, the lowest first.
    fn holds_byte(&self, j: usize) -> u8
        ensures { 8 * j + 7 < 2 ^ 64 → result ≡ eight (λ r. holds (shows self.now r)) j }
    {
        let mut byte = 0;
        for i in 0..8 {
            let row = j.wrapping_mul(8).wrapping_add(i);
            byte += u8::from(self.flag(row).unwrap_or(false)) << i;
        }
        byte
    }
}

// Writes the bytes of so many truth values: which are not missing, and which are true. Spare bits are zero.
fn put_eights<F: FlagSource>(validity: &mut [u8], bits: &mut [u8], flags: &F, rows: usize)
    requires validity { (rows + 7) / 8 ≤ length validity.old }
    requires bits { (rows + 7) / 8 ≤ length bits.old }
    ensures validity { validity.new ≡ over (packed (map known (map (F.FlagSource.shows flags.now) (count_up 0 rows)))) validity.old }
    ensures bits { bits.new ≡ over (packed (map holds (map (F.FlagSource.shows flags.now) (count_up 0 rows)))) bits.old }
{
    for j in 0..rows / 8 {
        validity[j] = flags.known_byte(j);
        bits[j] = flags.holds_byte(j);
    }
    let last = rows % 8;
    if last > 0 {
        let j = rows / 8;
        validity[j] = flags.known_byte(j) % (1 << last);
        bits[j] = flags.holds_byte(j) % (1 << last);
    }
}

impl<'a> FlagOutput<'a> {
    /// Whether the buffers are long enough for so many truth values.
    pub fn has_room(&self, rows: usize) -> bool
        ensures { result ≡ flag_room rows (flag_parts_seen self.now) }
    {
        let bytes = rows.div_ceil(8);
        bytes <= self.validity.len() && bytes <= self.bits.len()
    }

    /// Writes the first `rows` truth values, or nothing where a buffer is too short: SPACE.
    pub fn put_flags<F: FlagSource>(&mut self, flags: &F, rows: usize) -> Result<(), OutputFault>
        ensures answer { result ≡ outcome (refuse (not (fits_flags (flags_laid (F.FlagSource.shows flags.now) rows) (flag_parts_seen self.old))) output.Space) tt }
        ensures after { flag_parts_seen self.new ≡ (if fits_flags (flags_laid (F.FlagSource.shows flags.now) rows) (flag_parts_seen self.old) then written_flags (flags_laid (F.FlagSource.shows flags.now) rows) (flag_parts_seen self.old) else flag_parts_seen self.old) }
    {
        if !self.has_room(rows) {
            return Err(OutputFault::Space);
        }
        put_eights(self.validity, self.bits, flags, rows);
        Ok(())
    }
}
