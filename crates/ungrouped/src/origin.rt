//! Where a held row came from.

/// A held row came by an update, or by a merge.
#[derive(Clone, Copy)]
pub enum Origin {
    /// A row of a table.
    Update,
    /// A row that another accumulator wrote out.
    Merge,
}
