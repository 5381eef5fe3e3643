// The batch that decides between a grouped and an ungrouped LAST of one event, and its top rows.
ghost use Rattle.std.specs.Prelude.{◌≡◌};
ghost use Rattle.std.specs.Bool.{Decides};
ghost use Rattle.quay.specs.Rules.{rule_code};

use crate::hits::Hit;

// The number of the deciding batch, the first that has a row of the highest rank of all, and its first and its last row of that rank.
#[derive(Clone, Copy)]
pub struct Tops {
    pub batch: usize,
    pub first: Hit,
    pub last: Hit,
}

// The highest rank in a batch, if it has a row.
fn highest(hits: &[Hit]) -> Option<i64> {
    hits.iter().map(|hit| hit.rank).max()
}

impl Tops {
    // The top rows of the deciding batch, if there is a row at all.
    pub fn of(batches: &[&[Hit]]) -> Option<Tops> {
        let rank = batches.iter().filter_map(|hits| highest(hits)).max()?;
        for (batch, hits) in batches.iter().enumerate() {
            let mut tops = hits.iter().filter(|hit| hit.rank == rank);
            if let Some(first) = tops.next() {
                let last = tops.last().unwrap_or(first);
                return Some(Tops {
                    batch,
                    first: *first,
                    last: *last,
                });
            }
        }
        None
    }

    // Whether the first and the last top row have the same value and the same key.
    pub fn agree(&self) -> bool
        ensures { Decides result ((rule_code self.now.first.rule ≡ rule_code self.now.last.rule) × (self.now.first.rank ≡ self.now.last.rank)) }
    {
        i64::from(self.first.rule) == i64::from(self.last.rule) && self.first.rank == self.last.rank
    }
}
