// The parts of a call, each with a lifetime of its own.
use crate::stages::{Numbers, numbers, zeros};
use column::{BoolColumn, Column};
use faults::Fault;
use layout::FlagOutput;

// Rows of a table come in.
fn update<'values, 'keys, 'groups, 'marks>(
    stage: &mut Numbers,
    values: Column<'values>,
    keys: [Column<'keys>; 3],
    groups: &'groups [usize],
    filter: Option<BoolColumn<'marks>>,
) -> Result<(), Fault> {
    stage.update_batch(values, keys, 1, groups, filter, 3)
}

// Rows that another accumulator wrote out come in.
fn merge<'values, 'keys, 'groups, 'marks>(
    stage: &mut Numbers,
    values: Column<'values>,
    keys: [Column<'keys>; 3],
    groups: &'groups [usize],
    flags: BoolColumn<'marks>,
) -> Result<(), Fault> {
    stage.merge_batch(values, keys, 1, groups, flags, 3)
}

// Rows become what another accumulator can take in.
fn convert<'values, 'keys, 'marks>(
    stage: &Numbers,
    values: Column<'values>,
    keys: [Column<'keys>; 3],
    filter: Option<BoolColumn<'marks>>,
    out: &mut FlagOutput,
) -> Result<(), Fault> {
    stage.convert_to_state(values, keys, 1, filter, out)
}

// The filter, which lives the shortest, lets the first and the last of three rows in, each to a group of its own.
#[test]
fn parts_of_different_scopes(rt: HostRuntime) {
    let mut stage = numbers();
    let mut merged = numbers();
    let mut known = [0];
    let mut bits = [0];
    let values = [0; 24];
    {
        let keys = [zeros(3, &[1; 24]); 3];
        {
            let groups = [0, 1, 2];
            {
                let marks = [0b101];
                let filter = BoolColumn {
                    rows: 3,
                    validity: &[],
                    bits: &marks,
                };
                let values = zeros(3, &values);
                assert!(rt; update(&mut stage, values, keys, &groups, Some(filter)).is_ok());
                assert!(rt; merge(&mut merged, values, keys, &groups, filter).is_ok());
                let mut out = FlagOutput {
                    validity: &mut known,
                    bits: &mut bits,
                };
                assert!(rt; convert(&stage, values, keys, Some(filter), &mut out).is_ok());
            }
        }
    }
    for (group, set) in [(0, true), (1, false), (2, true)] {
        assert_eq!(rt; stage.is_set(group), set);
        assert_eq!(rt; merged.is_set(group), set);
    }
    assert_eq!(rt; bits, [0b101]);
}
