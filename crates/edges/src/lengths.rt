// How long a text may be, as a value and as a key.
use crate::stages::{Refused, refused, text, texts};
use column::Column;

// What a stage of texts answers to a batch of one row.
fn take<'a>(value: Column<'a>, key: Column<'a>) -> Result<(), Refused> {
    let mut stage = texts();
    stage
        .update_batch(value, [key; 3], 1, &[0], None, 1)
        .map_err(refused)
}

// 32 bytes pass, 33 do not; the value is looked at before the key, and a null may stand over 33 bytes.
#[test]
fn lengths_at_the_limit(rt: HostRuntime) {
    let data = [b'q'; 33];
    let fits = text(&[0, 32], &data);
    let long = text(&[0, 33], &data);
    let null = Column {
        validity: &[0],
        ..long
    };
    for (value, key, answer) in [
        (fits, fits, Ok(())),
        (long, fits, Err((5, 2, 0, 0))),
        (fits, long, Err((5, 3, 1, 0))),
        (long, long, Err((5, 2, 0, 0))),
        (null, null, Ok(())),
    ] {
        assert_eq!(rt; take(value, key), answer);
    }
}
