// Rows of numbers by one number, as a column of values and a column of keys.
use crate::buffers::Numbers;
use crate::declined::Declined;
use crate::stages::{Last, Stage};
use column::BoolColumn;
use std::alloc::{AllocError, Global};

// A value and its key.
#[derive(Clone, Copy)]
pub struct Row {
    pub value: i64,
    pub key: i64,
}

// The buffers of the two columns.
#[derive(Drop)]
pub struct Keyed {
    values: Numbers,
    keys: Numbers,
}

impl Keyed {
    // The columns that show some rows.
    pub fn of(heap: Global, rows: &[Row]) -> Result<Keyed, AllocError> {
        let mut values = Vec::new(heap);
        let mut keys = Vec::new(heap);
        for row in rows {
            values.push(Some(row.value))?;
            keys.push(Some(row.key))?;
        }
        Ok(Keyed {
            values: Numbers::of(heap, &values)?,
            keys: Numbers::of(heap, &keys)?,
        })
    }

    // Hands the rows to a stage, each to the group of its index, under a filter if there is one.
    pub fn update_stage<'a>(
        &'a self,
        stage: &mut Stage,
        groups: &'a [usize],
        filter: Option<BoolColumn<'a>>,
        total: usize,
    ) -> Result<(), Declined> {
        let values = self.values.column()?;
        let keys = [self.keys.column()?; 3];
        stage.update_batch(values, keys, 1, groups, filter, total)?;
        Ok(())
    }

    // Hands the rows to a LAST.
    pub fn update_last(&self, last: &mut Last) -> Result<(), Declined> {
        let values = self.values.column()?;
        let keys = [self.keys.column()?; 3];
        last.update_batch(values, keys, 1)?;
        Ok(())
    }
}
