// The number of the place where a refusal is met, as users see it.
ghost use Rattle.std.specs.Prelude.{◌≡◌, ◌+◌, min};
ghost use Rattle.faults.specs.Reported.{place_number};

use crate::Place;

impl Place {
    /// The place of the order column `j`, counted from 0; the third stands for any later one.
    pub fn of_key(j: usize) -> Place
        ensures { place_number result ≡ min 3 (j + 1) }
    {
        match j {
            0 => Place::FirstKey,
            1 => Place::SecondKey,
            _ => Place::ThirdKey,
        }
    }

    /// The number of the place: 0 values, 1 to 3 order columns, 4 filter or flags, 9 none.
    pub fn number(self) -> u8
        ensures { result ≡ place_number self }
    {
        match self {
            Place::Values => 0,
            Place::FirstKey => 1,
            Place::SecondKey => 2,
            Place::ThirdKey => 3,
            Place::Marks => 4,
            Place::Call => 9,
        }
    }
}
