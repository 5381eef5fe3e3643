//! When two grouped accumulators agree.
#![tactic(auto)]

ghost use Rattle.std.specs.Prelude.{◌≡◌};
ghost use Rattle.agreement.specs.Deciding.{WinnersDecide};
ghost use Rattle.agreement.specs.Room.{RoomForOne};

/// How many elements in each part of a buffer are room for any one cell. So the state of one group can always be asked for, and what it shows tells the group's winner.
pub fn room_for_one() -> usize
    ensures most { result ≡ 16777215 }
    ensures room { RoomForOne result }
    ensures decide { WinnersDecide }
{
    16_777_215
}
