// The number and the layer of a column's refusal, as users see them.
ghost use Rattle.std.specs.Prelude.{◌≡◌};
ghost use Rattle.column.specs.Faults.{column_number, in_column};

use crate::ColumnFault;

impl ColumnFault {
    /// The refusal's number.
    pub fn number(&self) -> u8
        ensures { result ≡ column_number self.now }
    {
        match self {
            ColumnFault::Kind => 1,
            ColumnFault::Shape => 2,
        }
    }

    /// The layer that the refusal comes from.
    pub fn layer(&self) -> u8
        ensures { result ≡ in_column }
    {
        1
    }
}
