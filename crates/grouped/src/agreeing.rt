//! Whether two accumulators hold the same: then, made alike, they answer alike from now on.
ghost use Rattle.std.specs.Bool.{Decides};
ghost use Rattle.std.specs.Prelude.{◌<◌};
ghost use Rattle.agreement.specs.Deciding.{WinnersAgree, HoldAlike};
ghost use Rattle.grouped.specs.Reached.{winner_shown, winners_shown, AnswersDefined, WinnersDecideOf};

use crate::FirstLastGroupsAccumulator;
use tables::{RowOrder, ValueState};

impl<S: ValueState, O: RowOrder> FirstLastGroupsAccumulator<S, O> {
    // Whether the winners of a held group agree: both are missing, or they show the same value and the same key.
    fn same_winner(&self, other: &Self, group: usize) -> bool
        requires mine { group < self.now.slots.len }
        requires theirs { group < other.now.slots.len }
        ensures { Decides result (WinnersAgree (winner_shown self.now group) (winner_shown other.now group)) }
    {
        match (self.slots.is_set(group), other.slots.is_set(group)) {
            (true, true) => self.kept.same_row(group, &other.kept, group),
            (mine, theirs) => mine == theirs,
        }
    }

    // Whether both hold equally many groups with agreeing winners.
    fn same_winners(&self, other: &Self) -> bool
        ensures { Decides result (HoldAlike (winners_shown self.now) (winners_shown other.now)) }
    {
        let groups = self.slots.len;
        if groups != other.slots.len {
            return false;
        }
        // By a loop: the clauses of the library's `all` over a range do not say at which groups it asked.
        for group in 0..groups {
            if !self.same_winner(other, group) {
                return false;
            }
        }
        true
    }

    /// Whether both hold equally many groups with agreeing winners.
    ///
    /// Of two that were made alike, each reached by nothing but its own list of calls, this says whether every list of further calls, the same for both, draws the same answers from both.
    pub fn agrees(&self, other: &Self) -> bool
        ensures holds { Decides result (HoldAlike (winners_shown self.now) (winners_shown other.now)) }
        ensures decides { WinnersDecideOf self.now other.now }
        ensures defined { AnswersDefined self.now × AnswersDefined other.now }
    {
        self.same_winners(other)
    }
}
