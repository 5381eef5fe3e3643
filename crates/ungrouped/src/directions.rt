//! FIRST and LAST as types.
ghost use Rattle.std.specs.Prelude.{◌≡◌, Bool, true, false};

/// Which of some rows, in the order of their keys, is kept.
pub trait Direction {
    ghost first: { Bool };

    /// Whether it is the first, else the last.
    fn is_first() -> bool
        ensures { result ≡ first };
}

/// The first row is kept.
#[derive(Drop)]
pub struct First;

/// The last row is kept.
#[derive(Drop)]
pub struct Last;

impl Direction for First {
    ghost first = { true };

    fn is_first() -> bool {
        true
    }
}

impl Direction for Last {
    ghost first = { false };

    fn is_first() -> bool {
        false
    }
}
