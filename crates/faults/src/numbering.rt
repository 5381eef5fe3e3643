// The number and the layer of a refusal, as users see them.
ghost use Rattle.std.specs.Prelude.{◌≡◌};
ghost use Rattle.tables.specs.Numbered.{table_number, state_number, order_number};
ghost use Rattle.faults.specs.Reported.{own_number, fault_seen};

use crate::{Fault, OwnFault, Refusal};
use tables::{OrderFault, StateFault, TableFault};

// The number of each refusal, whichever layer it comes from. A column's refusals, 1 and 2, come before any accumulator.
const KIND: u8 = 1;

const ROWS: u8 = 3;

const COLS: u8 = 4;

const LONG: u8 = 5;

const TOTAL: u8 = 6;

const GROUP: u8 = 7;

const SPACE: u8 = 8;

const FLAGS: u8 = 9;

const SHRUNK: u8 = 10;

const FEWER: u8 = 11;

const EMPTY: u8 = 12;

fn table_number(fault: TableFault) -> u8
    ensures { result ≡ table_number fault }
{
    match fault {
        TableFault::Total => TOTAL,
        TableFault::Shrunk => SHRUNK,
        TableFault::Fewer => FEWER,
    }
}

fn state_number(fault: StateFault) -> u8
    ensures { result ≡ state_number fault }
{
    match fault {
        StateFault::Table(fault) => table_number(fault),
        StateFault::Group => GROUP,
        StateFault::Kind => KIND,
        StateFault::Rows => ROWS,
        StateFault::Long => LONG,
        StateFault::Space => SPACE,
    }
}

fn order_number(fault: OrderFault) -> u8
    ensures { result ≡ order_number fault }
{
    match fault {
        OrderFault::Table(fault) => table_number(fault),
        OrderFault::Cols => COLS,
        OrderFault::Group => GROUP,
        OrderFault::Kind => KIND,
        OrderFault::Rows => ROWS,
        OrderFault::Long => LONG,
        OrderFault::Space => SPACE,
    }
}

fn own_number(fault: OwnFault) -> u8
    ensures { result ≡ own_number fault }
{
    match fault {
        OwnFault::Cols => COLS,
        OwnFault::Rows => ROWS,
        OwnFault::Total => TOTAL,
        OwnFault::Shrunk => SHRUNK,
        OwnFault::Group => GROUP,
        OwnFault::Space => SPACE,
        OwnFault::Flags => FLAGS,
        OwnFault::Fewer => FEWER,
        OwnFault::Empty => EMPTY,
    }
}

impl Fault {
    /// The refusal's number.
    pub fn number(&self) -> u8
        ensures { result ≡ (fault_seen self.now).number }
    {
        match self.refusal {
            Refusal::State(fault) => state_number(fault),
            Refusal::Order(fault) => order_number(fault),
            Refusal::Own(fault) => own_number(fault),
        }
    }

    /// The layer that the refusal comes from: 2 value state, 3 row order, 4 accumulator.
    pub fn layer(&self) -> u8
        ensures { result ≡ (fault_seen self.now).layer }
    {
        match self.refusal {
            Refusal::State(_) => 2,
            Refusal::Order(_) => 3,
            Refusal::Own(_) => 4,
        }
    }

    /// The number of the place where the refusal was met: 0 values, 1 to 3 order columns, 4 filter or flags, 9 none.
    pub fn column(&self) -> u8
        ensures { result ≡ (fault_seen self.now).column }
    {
        self.place.number()
    }
}
