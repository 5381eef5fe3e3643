// Faults: why an accumulator declines a call, with the number, the layer, the place and the row of each refusal.
#![tactic(auto)]

mod display;
mod numbering;
mod places;
mod placing;

pub use placing::{located, own};
use tables::{OrderFault, StateFault};

/// Why an accumulator declines a call on its own account.
#[derive(Clone, Copy, Debug, PartialEq, Eq)]
pub enum OwnFault {
    /// Not as many order columns as the order reads, or not 1 to 3.
    Cols,
    /// Unequal row counts.
    Rows,
    /// A total over 256.
    Total,
    /// A total below the groups that are held.
    Shrunk,
    /// A group index that is not below the total.
    Group,
    /// A flag buffer that is too short.
    Space,
    /// A null flag in a merge without groups.
    Flags,
    /// More groups are asked for than are held.
    Fewer,
    /// No group is asked for.
    Empty,
}

/// A refusal of the accumulator's own, or a lower layer's, whole.
#[derive(Clone, Copy, Debug, PartialEq, Eq)]
pub enum Refusal {
    /// The value state's.
    State(StateFault),
    /// The row order's.
    Order(OrderFault),
    /// The accumulator's own.
    Own(OwnFault),
}

/// Where a refusal is met: in the values, in an order column, in a filter or in flags, or in no column at all.
#[derive(Clone, Copy, Debug, PartialEq, Eq)]
pub enum Place {
    /// The value column.
    Values,
    /// The first order column.
    FirstKey,
    /// The second order column.
    SecondKey,
    /// The third order column, or a later one.
    ThirdKey,
    /// The filter, or the flags.
    Marks,
    /// No column.
    Call,
}

/// A refusal with the place and the row where it was met.
#[derive(Clone, Copy, Debug, PartialEq, Eq)]
pub struct Fault {
    /// Why the call is declined.
    pub refusal: Refusal,
    /// The part of the call.
    pub place: Place,
    /// The row, counted from 0; 0 where no row is at fault.
    pub row: usize,
}

/// A lower layer's refusal, with the place and the row where it was met.
#[derive(Clone, Copy, Debug, PartialEq, Eq)]
pub struct At<F> {
    /// The refusal.
    pub fault: F,
    /// The part of the call.
    pub place: Place,
    /// The row, counted from 0; 0 where no row is at fault.
    pub row: usize,
}
