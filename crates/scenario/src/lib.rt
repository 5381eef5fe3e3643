// Scenarios: text, a command to a line, that drives accumulators. One line is read here; docs/SCENARIOS.md has the format.
#![tactic(auto)]

ghost use Rattle.std.specs.Prelude.{◌≡◌};
ghost use Rattle.scenario.specs.declared.Unread.TheVariants.{OutOfMemory};

mod alone;
mod calls;
mod cells;
mod commands;
mod fields;
mod lists;
mod makings;
mod marking;
mod packing;
mod pieces;
mod rooms;
mod words;

pub use alone::SingleCall;
pub use calls::{Batch, Call, Columns, Leaving};
use column::Kind;
pub use commands::{Command, read};
pub use makings::{Form, Making, Order};
pub use marking::Marks;
pub use pieces::Parts;
pub use rooms::{Buffer, OutputColumn, OutputPart, Room};
use std::alloc::{AllocError, AllocFailed};

// What an accumulator reads: the kind of its values, and the kind and the number of its keys; and whether it has no groups. An order's keys are all of one kind.
#[derive(Clone, Copy)]
pub struct Reads {
    pub alone: bool,
    pub values: Kind,
    pub keys: Kind,
    pub count: usize,
}

// Why a line cannot be read.
#[derive(Clone, Copy)]
pub enum Unread {
    Malformed,
    OutOfMemory,
}

impl From<AllocError> for Unread {
    ghost from_gives = { λ _ e. e ≡ OutOfMemory };

    // Memory does not suffice.
    fn from(_error: AllocError) -> Unread {
        Unread::OutOfMemory
    }
}

impl<T: Drop> From<AllocFailed<T>> for Unread {
    ghost from_gives = { λ _ e. e ≡ OutOfMemory };

    // Memory does not suffice.
    fn from(_error: AllocFailed<T>) -> Unread {
        Unread::OutOfMemory
    }
}
