//! A lower layer's refusal inside a value state's and a row order's.
ghost use Rattle.std.specs.Prelude.{◌≡◌};
ghost use Rattle.tables.specs.declared.OrderFault.TheVariants as order;
ghost use Rattle.tables.specs.declared.StateFault.TheVariants as state;

use crate::{OrderFault, StateFault, TableFault};
use layout::OutputFault;

impl From<TableFault> for StateFault {
    ghost from_gives = { λ e r. r ≡ state.Table e };

    fn from(fault: TableFault) -> StateFault {
        StateFault::Table(fault)
    }
}

impl From<TableFault> for OrderFault {
    ghost from_gives = { λ e r. r ≡ order.Table e };

    fn from(fault: TableFault) -> OrderFault {
        OrderFault::Table(fault)
    }
}

impl From<OutputFault> for StateFault {
    ghost from_gives = { λ e r. r ≡ state.Space };

    fn from(fault: OutputFault) -> StateFault {
        match fault {
            OutputFault::Space => StateFault::Space,
        }
    }
}

impl From<OutputFault> for OrderFault {
    ghost from_gives = { λ e r. r ≡ order.Space };

    fn from(fault: OutputFault) -> OrderFault {
        match fault {
            OutputFault::Space => OrderFault::Space,
        }
    }
}
