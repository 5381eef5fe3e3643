// Why a call of a stage is declined.
use anyhow::anyhow;
use column::ColumnFault;
use faults::Fault;
use std::fmt;

// A column cannot be made, or the stage declines.
#[derive(Clone, Copy)]
pub enum Declined {
    Column(ColumnFault),
    Stage(Fault),
}

impl From<ColumnFault> for Declined {
    fn from(fault: ColumnFault) -> Declined {
        Declined::Column(fault)
    }
}

impl From<Fault> for Declined {
    fn from(fault: Fault) -> Declined {
        Declined::Stage(fault)
    }
}

impl fmt::Display for Declined {
    fn fmt<W: fmt::Write>(&self, f: &mut fmt::Formatter<W>) -> fmt::Result {
        match self {
            Declined::Column(fault) => write!(f, "{fault}"),
            Declined::Stage(fault) => write!(f, "{fault}"),
        }
    }
}

// An error where a stage declines a batch.
pub fn taken(answer: Result<(), Declined>) -> anyhow::Result<()> {
    answer.map_err(|why| anyhow!("a batch is not taken: declined {why}"))
}
