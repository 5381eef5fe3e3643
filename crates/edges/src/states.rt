// How long the buffers of a state have to be, and a state of no group.
use crate::stages::{Refused, Texts, refused, text, texts};
use grouped::{EmitTo, StateOutput};
use layout::{FlagOutput, KeyOutputs, Output};
use midnight::save_day;
use std::alloc::{AllocError, Global};
use std::test::Fail;

// How long each part is that the state of the nine groups of `nine` needs: validity, offsets and data of the values and of the key, validity and bits of the flags.
const NEEDED: [usize; 8] = [2, 10, 4, 2, 10, 1, 2, 2];

// The buffers of a state; each byte is 255 before it is written, and so is each byte of an offset.
#[derive(Drop)]
struct Saved {
    value_validity: Vec<u8>,
    value_offsets: Vec<u32>,
    value_data: Vec<u8>,
    key_validity: Vec<u8>,
    key_offsets: Vec<u32>,
    key_data: Vec<u8>,
    flag_validity: Vec<u8>,
    flag_bits: Vec<u8>,
}

// A stage of nine groups, the first of which holds the value `quay` and the key `b`.
fn nine() -> Result<Texts, Refused> {
    let mut stage = texts();
    let value = text(&[0, 4], b"quay");
    let key = text(&[0, 1], b"b");
    stage
        .update_batch(value, [key; 3], 1, &[0], None, 9)
        .map_err(refused)?;
    Ok(stage)
}

impl Saved {
    // New buffers of these lengths.
    fn room(heap: Global, sizes: [usize; 8]) -> Result<Saved, AllocError> {
        Ok(Saved {
            value_validity: vec![in heap; 255u8; sizes[0]]?,
            value_offsets: vec![in heap; u32::MAX; sizes[1]]?,
            value_data: vec![in heap; 255u8; sizes[2]]?,
            key_validity: vec![in heap; 255u8; sizes[3]]?,
            key_offsets: vec![in heap; u32::MAX; sizes[4]]?,
            key_data: vec![in heap; 255u8; sizes[5]]?,
            flag_validity: vec![in heap; 255u8; sizes[6]]?,
            flag_bits: vec![in heap; 255u8; sizes[7]]?,
        })
    }

    // The first groups of a stage leave into these buffers: how many left, or the refusal.
    fn save(&mut self, stage: &mut Texts, leaving: EmitTo) -> Result<u32, Refused> {
        let mut out = StateOutput {
            values: Output {
                validity: &mut self.value_validity,
                offsets: &mut self.value_offsets,
                data: &mut self.value_data,
            },
            keys: KeyOutputs {
                first: Output {
                    validity: &mut self.key_validity,
                    offsets: &mut self.key_offsets,
                    data: &mut self.key_data,
                },
                second: nothing(),
                third: nothing(),
            },
            flags: FlagOutput {
                validity: &mut self.flag_validity,
                bits: &mut self.flag_bits,
            },
        };
        save_day(stage, leaving, &mut out, &mut []).map_err(refused)
    }

    // Whether nothing was written.
    fn is_untouched(&self) -> bool {
        [
            &self.value_validity,
            &self.value_data,
            &self.key_validity,
            &self.key_data,
            &self.flag_validity,
            &self.flag_bits,
        ]
        .iter()
        .all(|bytes| bytes.iter().all(|byte| *byte == 255))
            && self.value_offsets.iter().all(|offset| *offset == u32::MAX)
            && self.key_offsets.iter().all(|offset| *offset == u32::MAX)
    }
}

// Whether the state of the nine groups of `nine` was written.
fn is_nine(saved: &Saved) -> bool {
    saved.value_validity.as_slice() == [1, 0].as_slice()
        && saved.value_offsets.as_slice() == [0, 4, 4, 4, 4, 4, 4, 4, 4, 4].as_slice()
        && saved.value_data.as_slice() == b"quay".as_slice()
        && saved.key_validity.as_slice() == [1, 0].as_slice()
        && saved.key_offsets.as_slice() == [0, 1, 1, 1, 1, 1, 1, 1, 1, 1].as_slice()
        && saved.key_data.as_slice() == b"b".as_slice()
        && saved.flag_validity.as_slice() == [255, 1].as_slice()
        && saved.flag_bits.as_slice() == [1, 0].as_slice()
}

// What a state answers where a part is one short, and whether nothing is written then.
fn save_short(
    heap: Global,
    stage: &mut Texts,
    part: usize,
) -> Result<(Result<u32, Refused>, bool), AllocError> {
    let mut sizes = NEEDED;
    if let Some(size) = sizes.get_mut(part) {
        *size = size.saturating_sub(1);
    }
    let mut saved = Saved::room(heap, sizes)?;
    let left = saved.save(stage, EmitTo::All);
    Ok((left, saved.is_untouched()))
}

// The buffers of a column that the order does not read.
fn nothing<'a>() -> Output<'a> {
    Output {
        validity: &mut [],
        offsets: &mut [],
        data: &mut [],
    }
}

// Each part one short declines with its layer and its column.
#[test]
fn parts_one_short(rt: HostRuntime) -> Result<(), Fail> {
    let mut stage = nine().expect(&rt, "the row is taken");
    let places = [
        (2, 0),
        (2, 0),
        (2, 0),
        (3, 1),
        (3, 1),
        (3, 1),
        (4, 4),
        (4, 4),
    ];
    for (part, (layer, column)) in places.iter().copied().enumerate() {
        let left = save_short(rt.alloc(), &mut stage, part)?;
        assert_eq!(rt; left, (Err((8, layer, column, 0)), true), "part {part}");
    }
    Ok(())
}

// The state that is exactly full has every byte.
#[test]
fn parts_exactly_full(rt: HostRuntime) -> Result<(), Fail> {
    let mut stage = nine().expect(&rt, "the row is taken");
    let mut saved = Saved::room(rt.alloc(), NEEDED)?;
    assert!(rt; saved.save(&mut stage, EmitTo::All) == Ok(9));
    assert!(rt; is_nine(&saved));
    Ok(())
}

// A state of no group declines, whether none is held or none is asked for; so does one of more than are held.
#[test]
fn states_of_no_group(rt: HostRuntime) -> Result<(), Fail> {
    let mut saved = Saved::room(rt.alloc(), NEEDED)?;
    let mut empty = texts();
    for (leaving, number) in [
        (EmitTo::All, 12),
        (EmitTo::First(0), 12),
        (EmitTo::First(1), 11),
    ] {
        assert_eq!(rt; saved.save(&mut empty, leaving), Err((number, 4, 9, 0)));
    }
    assert!(rt; saved.is_untouched());
    Ok(())
}

// The same where nine groups are held.
#[test]
fn states_of_other_groups(rt: HostRuntime) -> Result<(), Fail> {
    let mut saved = Saved::room(rt.alloc(), NEEDED)?;
    let mut stage = nine().expect(&rt, "the row is taken");
    for (leaving, number) in [(EmitTo::First(0), 12), (EmitTo::First(10), 11)] {
        assert_eq!(rt; saved.save(&mut stage, leaving), Err((number, 4, 9, 0)));
    }
    assert!(rt; saved.is_untouched());
    assert!(rt; saved.save(&mut stage, EmitTo::First(9)) == Ok(9));
    Ok(())
}
