// How many rows a column may have.
use crate::stages::{numbers, zeros};
use column::{BoolColumn, Column};
use std::alloc::{AllocError, Global};
use std::test::Fail;

// Whether so many zero rows of a kind make a column, or the refusal's number.
fn made(heap: Global, kind: u32, rows: usize) -> Result<Result<(), u8>, AllocError> {
    let width = match kind {
        1 => 8,
        3 => 25,
        _ => 0,
    };
    let texts = if kind == 2 { rows.saturating_add(1) } else { 0 };
    let offsets = vec![in heap; 0u32; texts]?;
    let data = vec![in heap; 0u8; rows.saturating_mul(width)]?;
    let made = Column::new(kind, rows, &[], &offsets, &data);
    Ok(made.map(|_| ()).map_err(|fault| fault.number()))
}

// The same for false flags.
fn flags_made(heap: Global, rows: usize) -> Result<Result<(), u8>, AllocError> {
    let bits = vec![in heap; 0u8; rows.div_ceil(8)]?;
    let made = BoolColumn::new(rows, &[], &bits);
    Ok(made.map(|_| ()).map_err(|fault| fault.number()))
}

#[test]
fn rows_at_the_limit(rt: HostRuntime) -> Result<(), Fail> {
    let heap = rt.alloc();
    for kind in 1..4u32 {
        for (rows, answer) in [(1024, Ok(())), (1025, Err(2))] {
            assert_eq!(rt; made(heap, kind, rows)?, answer, "kind {kind}");
        }
    }
    Ok(())
}

#[test]
fn flags_at_the_limit(rt: HostRuntime) -> Result<(), Fail> {
    for (rows, answer) in [(1024, Ok(())), (1025, Err(2))] {
        assert_eq!(rt; flags_made(rt.alloc(), rows)?, answer);
    }
    Ok(())
}

// A batch of as many rows as a column may have.
#[test]
fn batch_at_the_limit(rt: HostRuntime) -> Result<(), Fail> {
    let data = vec![in rt.alloc(); 0u8; 8192]?;
    let groups = vec![in rt.alloc(); 255usize; 1024]?;
    let rows = zeros(1024, &data);
    let mut stage = numbers();
    let taken = stage.update_batch(rows, [rows; 3], 1, &groups, None, 256);
    assert!(rt; taken.is_ok());
    Ok(())
}
