// A byte string of at most 32 bytes, held by value.
ghost use Rattle.std.specs.Prelude.{◌≡◌, ◌≤◌, length};

/// A byte string of at most 32 bytes: an array and a count, so that a table of them has fixed memory.
#[derive(Clone, Copy, Debug)]
pub struct ShortBytes {
    pub(crate) bytes: [u8; 32],
    pub(crate) len: u8,
    ghost whole: { length bytes ≡ 32 },
    ghost few: { len ≤ 32 },
}
