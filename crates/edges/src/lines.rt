// Lines of scenarios at the edges of the format, and the bytes of cells.
use column::Kind;
use scenario::{Call, Columns, Command, Marks, Parts, Reads, Room, Unread, read};
use std::alloc::Global;

// An accumulator of records by two numbers.
const READS: Reads = Reads {
    alone: false,
    values: Kind::Record,
    keys: Kind::Number,
    count: 2,
};

// Lines that begin as a making, and are none.
const MAKINGS: [&str; 15] = [
    "Make grouped first number number:asc-last",
    "make",
    "make grouped first number",
    "make both first number number:asc-last",
    "make grouped least number number:asc-last",
    "make grouped first text number:asc-last",
    "make grouped first number number:",
    "make grouped first number number:asc",
    "make grouped first number number:asc-last,",
    "make grouped first number number:asc-last,,asc-last",
    "make grouped first number number:asc-last,asc-last,asc-last,asc-last",
    "make grouped first number text:asc-last,asc-last",
    "make grouped first number number:asc-last pre-ordered",
    "make grouped first number number:asc-last ignore-nulls ignore-nulls",
    "make single first number number:asc-last pre-ordered ignore-nulls",
];

// Lines that begin as an opening, and are none.
const OPENINGS: [&str; 6] = [
    "open",
    "open 1",
    "open [-1]",
    "open [4294967296]",
    "open [1] [2]",
    "open [1]]",
];

// Lines that begin as an emission, and are none.
const EMISSIONS: [&str; 14] = [
    "evaluate",
    "evaluate -1",
    "evaluate +1",
    "evaluate 18446744073709551616",
    "evaluate room=+1 all",
    "evaluate all all",
    "evaluate all key=[1]",
    "evaluate all room=+1 room=+1",
    "evaluate all room=1",
    "evaluate all room=-values",
    "evaluate all room=-values.bits",
    "evaluate all room=-flags.data",
    "evaluate all room=-key4.data",
    "state",
];

// Lines that begin as a batch, and are none.
const BATCHES: [&str; 13] = [
    "update values=[] key=[] groups=[]",
    "update values=[] key=[] total=0",
    "update key=[] groups=[] total=0",
    "update values=[] values=[] key=[] groups=[] total=0",
    "update values=[] key=[] groups=[] total=0 flags=[]",
    "update values=[] key=[] groups=[] total=0 room=+1",
    "update values=[] key=[] groups=[] total=0 rows=0",
    "update values=[] key=[] groups=[] total=",
    "update values=[] key=[] groups=[1,2] total=0",
    "update values=[] key=[] groups=[ total=0",
    "update values=[]key=[] groups=[] total=0",
    "merge values=[] key=[] groups=[] total=0",
    "merge values=[] key=[] groups=[] total=0 flags=[] filter=[]",
];

// Conversions with cells that are none.
const CELLS: [&str; 14] = [
    "convert values=[] key=[] groups=[]",
    "convert values=[1/2] key=[1]",
    "convert values=[1/2/3/4] key=[1]",
    "convert values=[1/2/] key=[1]",
    "convert values=[1/2/null] key=[1]",
    "convert values=[1] key=[1]",
    "convert values=[1/2/3] key=[x01]",
    "convert values=[1/2/3] key=[+1]",
    "convert values=[1/2/3] key=[9223372036854775808]",
    "convert values=[1/2/3] key=[-9223372036854775809]",
    "convert values=bytes[01] key=[1]",
    "convert values=bytes[x0] key=[1]",
    "convert values=bytes[x0g] key=[1]",
    "convert values=text[x00] key=[1]",
];

// Conversions with parts or flags that are none.
const PARTS: [&str; 10] = [
    "convert values=[] key=[] filter=[2]",
    "convert values=[] key=[] filter=[10]",
    "convert values=[] key=[] filter={rows=0 validity=none bits=x}",
    "convert values=[] key={kind=1 rows=0 validity=none offsets=none}",
    "convert values=[] key={kind=1 rows=0 validity=none offsets=none data=x data=x}",
    "convert values=[] key={rows=0 kind=1 validity=none offsets=none data=x}",
    "convert values=[] key={kind=number rows=0 validity=none offsets=none data=x}",
    "convert values=[] key={kind=4294967296 rows=0 validity=none offsets=none data=x}",
    "convert values=[] key={kind=2 rows=0 validity=none offsets=[4294967296] data=x}",
    "convert values=[] key={kind=1 rows=0 validity=none offsets=none data=none}",
];

// A conversion with cells of each kind, and flags.
const CELLS_OF_ALL: &str =
    "convert  key=[ -2 null ]  values=[1/_/-1  null] key=bytes[x xfFa0] filter=[n 0]";

// The parts that a column's cells make.
#[derive(Clone, Copy)]
struct Laid<'a> {
    kind: u32,
    rows: usize,
    validity: &'a [u8],
    offsets: &'a [u32],
    data: &'a [u8],
}

// Reads a line, and lets go of its command.
fn taken(heap: Global, line: &str, reads: Option<Reads>) -> Result<(), Unread> {
    read(heap, line, reads)?;
    Ok(())
}

// Whether a line is malformed.
fn is_malformed(heap: Global, line: &str, reads: Option<Reads>) -> bool {
    matches!(taken(heap, line, reads), Err(Unread::Malformed))
}

// Whether each of some lines is malformed, although an accumulator is there.
fn are_malformed(heap: Global, lines: &[&str]) -> bool {
    lines
        .iter()
        .all(|line| is_malformed(heap, line, Some(READS)))
}

// The call of a line.
fn call(heap: Global, line: &str) -> Option<Call> {
    match read(heap, line, Some(READS)) {
        Ok(Command::Call(call)) => Some(call),
        _ => None,
    }
}

// The columns and the flags of a conversion into buffers as large as is needed.
fn converted(heap: Global, line: &str) -> Option<(Columns, Option<Marks>)> {
    match call(heap, line)? {
        Call::Convert {
            columns,
            filter,
            room: Room::Exact,
        } => Some((columns, filter)),
        _ => None,
    }
}

// Whether a column has these parts.
fn is_laid(parts: &Parts, laid: &Laid) -> bool {
    parts.kind == laid.kind
        && parts.rows == laid.rows
        && parts.validity.as_slice() == laid.validity
        && parts.offsets.as_slice() == laid.offsets
        && parts.data.as_slice() == laid.data
}

// Whether the value column of a conversion has these parts.
fn values_are(heap: Global, line: &str, laid: &Laid) -> bool {
    match converted(heap, line) {
        Some((columns, _)) => is_laid(&columns.values, laid),
        None => false,
    }
}

// Whether a key column of a conversion has these parts.
fn key_is(heap: Global, line: &str, key: usize, laid: &Laid) -> bool {
    let Some((columns, _)) = converted(heap, line) else {
        return false;
    };
    match columns.keys.get(key) {
        Some(parts) => is_laid(parts, laid),
        None => false,
    }
}

// Whether a conversion has no key column.
fn has_no_key(heap: Global, line: &str) -> bool {
    match converted(heap, line) {
        Some((columns, _)) => columns.keys.is_empty(),
        None => false,
    }
}

// Whether the flags of a conversion have these parts.
fn filter_is(heap: Global, line: &str, rows: usize, bits: &[u8], validity: &[u8]) -> bool {
    let Some((_, filter)) = converted(heap, line) else {
        return false;
    };
    match filter {
        Some(marks) => {
            marks.rows == rows
                && marks.bits.as_slice() == bits
                && marks.validity.as_slice() == validity
        }
        None => false,
    }
}

#[test]
fn refuses_what_is_no_command(rt: HostRuntime) {
    let heap = rt.alloc();
    assert!(rt; are_malformed(heap, &MAKINGS));
    assert!(rt; are_malformed(heap, &OPENINGS));
    assert!(rt; are_malformed(heap, &EMISSIONS));
    assert!(rt; are_malformed(heap, &BATCHES));
    assert!(rt; are_malformed(heap, &CELLS));
    assert!(rt; are_malformed(heap, &PARTS));
}

#[test]
fn a_call_waits_for_an_accumulator(rt: HostRuntime) {
    let heap = rt.alloc();
    assert!(rt; is_malformed(heap, "evaluate all", None));
    assert!(rt; taken(heap, "evaluate all", Some(READS)).is_ok());
    assert!(rt; taken(heap, "open [0]", None).is_ok());
}

#[test]
fn lays_records_out(rt: HostRuntime) {
    let laid = Laid {
        kind: 3,
        rows: 2,
        validity: &[1],
        offsets: &[],
        data: b"\x05\x01\0\0\0\0\0\0\0\0\0\0\0\0\0\0\0\xff\xff\xff\xff\xff\xff\xff\xff\0\0\0\0\0\0\0\0\0\0\0\0\0\0\0\0\0\0\0\0\0\0\0\0\0",
    };
    assert!(rt; values_are(rt.alloc(), CELLS_OF_ALL, &laid));
}

#[test]
fn lays_numbers_out(rt: HostRuntime) {
    let laid = Laid {
        kind: 1,
        rows: 2,
        validity: &[1],
        offsets: &[],
        data: b"\xfe\xff\xff\xff\xff\xff\xff\xff\0\0\0\0\0\0\0\0",
    };
    assert!(rt; key_is(rt.alloc(), CELLS_OF_ALL, 0, &laid));
}

#[test]
fn lays_strings_out(rt: HostRuntime) {
    let laid = Laid {
        kind: 2,
        rows: 2,
        validity: &[],
        offsets: &[0, 0, 2],
        data: b"\xff\xa0",
    };
    assert!(rt; key_is(rt.alloc(), CELLS_OF_ALL, 1, &laid));
}

#[test]
fn packs_flags(rt: HostRuntime) {
    let heap = rt.alloc();
    assert!(rt; filter_is(heap, CELLS_OF_ALL, 2, &[1], &[2]));
    let nine = "convert values=[] filter=[1 0 0 0 0 0 0 1 -]";
    assert!(rt; filter_is(heap, nine, 9, &[129, 0], &[255, 0]));
    assert!(rt; has_no_key(heap, nine));
}

#[test]
fn takes_the_largest_numbers(rt: HostRuntime) {
    let heap = rt.alloc();
    let numbers = "convert values=number[-9223372036854775808 9223372036854775807 -0] key=[007]";
    let laid = Laid {
        kind: 1,
        rows: 3,
        validity: &[],
        offsets: &[],
        data: b"\0\0\0\0\0\0\0\x80\xff\xff\xff\xff\xff\xff\xff\x7f\0\0\0\0\0\0\0\0",
    };
    assert!(rt; values_are(heap, numbers, &laid));
}

#[test]
fn takes_the_largest_parts(rt: HostRuntime) {
    let parts =
        "convert values={kind=4294967295 rows=18446744073709551615 validity=x00 offsets=[4294967295 0] data=x}";
    let laid = Laid {
        kind: u32::MAX,
        rows: usize::MAX,
        validity: &[0],
        offsets: &[u32::MAX, 0],
        data: &[],
    };
    assert!(rt; values_are(rt.alloc(), parts, &laid));
}
