// How many groups an emission may take, and how long its buffers have to be.
use crate::stages::{Numbers, grow, numbers, texts};
use grouped::EmitTo;
use layout::Output;
use midnight::close_day;
use std::alloc::{AllocError, Global};
use std::test::Fail;

// Writes the first groups to two buffers and drops them: how many left, or the refusal's number.
fn leave_into(
    stage: &mut Numbers,
    n: usize,
    validity: &mut [u8],
    data: &mut [u8],
) -> Result<u32, u8> {
    let mut out = Output {
        validity,
        offsets: &mut [],
        data,
    };
    close_day(stage, EmitTo::First(n), &mut out, &mut []).map_err(|fault| fault.number())
}

// What an emission into new buffers of these lengths answers, and the buffers after it; each byte was 255.
#[derive(Drop)]
struct Left {
    answer: Result<u32, u8>,
    validity: Vec<u8>,
    data: Vec<u8>,
}

// The first groups leave, into new buffers of these lengths.
fn leave(
    heap: Global,
    stage: &mut Numbers,
    n: usize,
    validity: usize,
    data: usize,
) -> Result<Left, AllocError> {
    let mut validity = vec![in heap; 255u8; validity]?;
    let mut data = vec![in heap; 255u8; data]?;
    let answer = leave_into(stage, n, &mut validity, &mut data);
    Ok(Left {
        answer,
        validity,
        data,
    })
}

// Whether all of some bytes are the same.
fn all(bytes: &[u8], byte: u8) -> bool {
    bytes.iter().all(|b| *b == byte)
}

// The first groups leave, into new buffers of these lengths: the answer, and whether each byte of the buffers is this one then.
fn leave_as(
    heap: Global,
    stage: &mut Numbers,
    n: usize,
    lengths: (usize, usize),
    byte: u8,
) -> Result<(Result<u32, u8>, bool), AllocError> {
    let left = leave(heap, stage, n, lengths.0, lengths.1)?;
    let all = all(&left.validity, byte) && all(&left.data, byte);
    Ok((left.answer, all))
}

// Nine groups need two validity bytes and 72 data bytes; a refusal writes nothing and drops nothing.
#[test]
fn outputs_exactly_full_and_one_short(rt: HostRuntime) -> Result<(), Fail> {
    let mut stage = numbers();
    assert!(rt; grow(&mut stage, 1, 9).is_ok());
    for (lengths, answer, byte) in [
        ((1, 72), Err(8), 255),
        ((2, 71), Err(8), 255),
        ((2, 72), Ok(9), 0),
    ] {
        let left = leave_as(rt.alloc(), &mut stage, 9, lengths, byte)?;
        assert_eq!(rt; left, (answer, true));
    }
    Ok(())
}

// First(n) above, below and at the groups held, into buffers that are longer than needed or just as long; what lies behind the written part is untouched.
#[test]
fn first_above_below_and_at(rt: HostRuntime) -> Result<(), Fail> {
    let heap = rt.alloc();
    let mut stage = numbers();
    assert!(rt; grow(&mut stage, 1, 3).is_ok());
    assert_eq!(rt; leave(heap, &mut stage, 4, 1, 32)?.answer, Err(11));
    let left = leave(heap, &mut stage, 2, 2, 17)?;
    assert_eq!(rt; left.answer, Ok(2));
    assert!(rt; left.validity.get(1).copied() == Some(255));
    assert!(rt; left.data.get(15).copied() == Some(0));
    assert!(rt; left.data.get(16).copied() == Some(255));
    assert_eq!(rt; leave(heap, &mut stage, 1, 1, 8)?.answer, Ok(1));
    assert_eq!(rt; leave(heap, &mut stage, 0, 0, 0)?.answer, Ok(0));
    assert_eq!(rt; leave(heap, &mut stage, 1, 1, 8)?.answer, Err(11));
    Ok(())
}

// The same into buffers that are always longer than needed.
#[test]
fn first_with_room_to_spare(rt: HostRuntime) -> Result<(), Fail> {
    let mut stage = numbers();
    assert!(rt; grow(&mut stage, 1, 3).is_ok());
    for (n, answer) in [
        (4, Err(11)),
        (2, Ok(2)),
        (1, Ok(1)),
        (0, Ok(0)),
        (1, Err(11)),
    ] {
        let left = leave(rt.alloc(), &mut stage, n, 1, 32)?;
        assert_eq!(rt; left.answer, answer, "first {n}");
    }
    Ok(())
}

// What lies behind the written part is untouched.
#[test]
fn nothing_behind_the_written_part(rt: HostRuntime) -> Result<(), Fail> {
    let mut stage = numbers();
    assert!(rt; grow(&mut stage, 1, 3).is_ok());
    let left = leave(rt.alloc(), &mut stage, 2, 2, 17)?;
    assert!(rt; left.validity.get(1).copied() == Some(255));
    assert!(rt; left.data.get(15).copied() == Some(0));
    assert!(rt; left.data.get(16).copied() == Some(255));
    Ok(())
}

// Texts of no group are one offset.
#[test]
fn texts_of_no_group(rt: HostRuntime) {
    let mut offsets = [u32::MAX];
    for (room, answer) in [(0, Err(8)), (1, Ok(0))] {
        let mut out = Output {
            validity: &mut [],
            offsets: &mut offsets[..room],
            data: &mut [],
        };
        let left = close_day(&mut texts(), EmitTo::All, &mut out, &mut []);
        assert_eq!(rt; left.map_err(|fault| fault.number()), answer);
    }
    assert_eq!(rt; offsets, [0]);
}
