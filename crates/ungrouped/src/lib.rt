//! FIRST and LAST values without groups, generic over the value state and the row order.
//!
//! The original's `FirstValueAccumulator` and `LastValueAccumulator` (`first_last.rs`).
#![tactic(auto)]

mod accumulators;
mod calls;
mod directions;
mod ends;
mod finding;
mod looking;
mod making;
mod origin;
mod single;
mod taking;

pub use accumulators::{FirstValueAccumulator, LastValueAccumulator, ValueAccumulator};
pub use directions::{Direction, First, Last};
