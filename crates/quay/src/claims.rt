// Claims of berths and shifts, as the rows of a batch.
use crate::declined::Declined;
use crate::events::Events;
use crate::texts::Texts;
use grouped::FirstLastGroupsAccumulator;
use orders::TextOrder;
use std::alloc::Global;
use values::BytesValueState;

// A stage of labels: a text for each event, FIRST by one text.
pub type Labels = FirstLastGroupsAccumulator<BytesValueState, TextOrder>;

// A berth or a shift that claims an event: its label, and the time that stands in the log, if one does.
#[derive(Clone, Copy)]
pub struct Claim<'a> {
    pub event: usize,
    pub label: &'a str,
    pub time: Option<&'a str>,
}

// The rows of a batch of claims, a buffer for each column.
#[derive(Drop)]
pub struct Claims {
    labels: Texts,
    times: Texts,
    groups: Vec<usize>,
}

impl Claims {
    // The rows that some claims put into the events.
    pub fn of(heap: Global, claims: &[Claim], events: &Events) -> anyhow::Result<Claims> {
        let mut labels = Vec::new(heap);
        let mut times = Vec::new(heap);
        let mut groups = Vec::new(heap);
        for claim in claims {
            labels.push(Some(claim.label))?;
            times.push(claim.time)?;
            groups.push(events.group(claim.event) as usize)?;
        }
        Ok(Claims {
            labels: Texts::of(heap, &labels)?,
            times: Texts::of(heap, &times)?,
            groups,
        })
    }

    // Hands the rows to a stage.
    pub fn update(&self, stage: &mut Labels, total: usize) -> Result<(), Declined> {
        let labels = self.labels.column()?;
        let times = [self.times.column()?; 3];
        stage.update_batch(labels, times, 1, &self.groups, None, total)?;
        Ok(())
    }
}
