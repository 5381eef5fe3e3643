//! The value states that come with the stage: of numbers, of byte strings and of records.
#![tactic(auto)]

mod bytes;
mod cells;
mod number;
mod record;

pub use bytes::BytesValueState;
pub use number::NumberValueState;
pub use record::RecordValueState;
