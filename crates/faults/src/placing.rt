// A lower layer's refusal inside the accumulator's, with its place and its row.
ghost use Rattle.std.specs.Prelude.{◌≡◌};
ghost use Rattle.faults.specs.Reported.{own_of, Placed};
ghost use Rattle.faults.specs.declared.OwnFault.TheVariants.{Space};
ghost use Rattle.faults.specs.declared.Refusal.TheVariants.{State, Order, Own};

use crate::{At, Fault, OwnFault, Place, Refusal};
use layout::OutputFault;
use tables::{OrderFault, StateFault, TableFault};

// Each lower layer's refusal travels in the fault by a `From` of its own, so that `?` and `located` never lose which layer declined.
impl From<At<StateFault>> for Fault {
    ghost from_gives = { λ e r. r ≡ record { refusal = State e.fault; place = e.place; row = e.row } };

    fn from(e: At<StateFault>) -> Fault {
        Fault {
            refusal: Refusal::State(e.fault),
            place: e.place,
            row: e.row,
        }
    }
}

impl From<At<OrderFault>> for Fault {
    ghost from_gives = { λ e r. r ≡ record { refusal = Order e.fault; place = e.place; row = e.row } };

    fn from(e: At<OrderFault>) -> Fault {
        Fault {
            refusal: Refusal::Order(e.fault),
            place: e.place,
            row: e.row,
        }
    }
}

// A group table's refusal is the accumulator's own.
impl From<At<TableFault>> for Fault {
    ghost from_gives = { λ e r. r ≡ record { refusal = Own (own_of e.fault); place = e.place; row = e.row } };

    fn from(e: At<TableFault>) -> Fault {
        let fault = match e.fault {
            TableFault::Total => OwnFault::Total,
            TableFault::Shrunk => OwnFault::Shrunk,
            TableFault::Fewer => OwnFault::Fewer,
        };
        own(fault, e.place, e.row)
    }
}

// A flag column's buffer that is too short is the accumulator's own refusal.
impl From<At<OutputFault>> for Fault {
    ghost from_gives = { λ e r. r ≡ record { refusal = Own Space; place = e.place; row = e.row } };

    fn from(e: At<OutputFault>) -> Fault {
        match e.fault {
            OutputFault::Space => own(OwnFault::Space, e.place, e.row),
        }
    }
}

/// A lower layer's refusal inside the accumulator's, with the place and the row where it was met: a state's or an order's whole, a group table's as the accumulator's own.
// A place and a row are two parameters: `At` and `Fault`, which hold them, are made of them here.
pub fn located<T, F>(r: Result<T, F>, place: Place, row: usize) -> Result<T, Fault>
where
    Fault: From<At<F>>,
    ensures { Placed ⟦<Fault as From<At<F>>>⟧.from_gives r place row result }
{
    r.map_err(|fault| Fault::from(At { fault, place, row }))
}

/// A refusal of the accumulator's own.
pub fn own(fault: OwnFault, place: Place, row: usize) -> Fault
    ensures { result ≡ record { refusal = Own fault; place = place; row = row } }
{
    Fault {
        refusal: Refusal::Own(fault),
        place,
        row,
    }
}
