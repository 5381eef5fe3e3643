// Arrow's bits and little-endian numbers.
ghost use Rattle.std.specs.Prelude.{◌≡◌, ◌+◌, ◌≤◌, length};
ghost use Rattle.column.specs.Columns.{bit_at, present, number_in};

// Bit `i`, the lowest bit of each byte first; false past the end.
#[inline]
pub(crate) fn bit(bytes: &[u8], i: usize) -> bool
    ensures { result ≡ bit_at bytes.now i }
{
    i / 8 < bytes.len() && (bytes[i / 8] >> (i % 8)) % 2 == 1
}

// Whether row `i` is not null: there are no validity bytes, or its bit is 1.
#[inline]
pub(crate) fn valid(validity: &[u8], i: usize) -> bool
    ensures { result ≡ present validity.now i }
{
    validity.is_empty() || bit(validity, i)
}

// The signed number in the eight bytes from `at` on.
#[inline]
pub(crate) fn number(bytes: &[u8], at: usize) -> i64
    requires { at + 8 ≤ length bytes.now }
    ensures { result ≡ number_in bytes.now at }
{
    i64::from_le_bytes([
        bytes[at],
        bytes[at + 1],
        bytes[at + 2],
        bytes[at + 3],
        bytes[at + 4],
        bytes[at + 5],
        bytes[at + 6],
        bytes[at + 7],
    ])
}
