//! The row orders that come with the stage: by one to three columns of numbers, and by one column of byte strings.
#![tactic(auto)]

mod key_column;
mod number;
mod sortings;
mod text;

pub use number::NumberOrder;
pub use text::TextOrder;
