// Truth values packed into bytes, and validity bytes.
ghost use Rattle.std.specs.Prelude.{◌≡◌, ◌≤◌, length, IfOk};
ghost use Rattle.std.specs.List.{list_all};
ghost use Rattle.layout.specs.Layout.{binary, packed};
ghost use Rattle.scenario.specs.Packing.{validity_bytes};

use std::alloc::{AllocError, Global};

// Up to eight truth values as the bits of a byte, the lowest first.
pub(crate) fn byte(bits: &[bool]) -> u8
    requires { length bits.now ≤ 8 }
    ensures { result ≡ binary bits.now }
{
    let mut byte = 0;
    for (i, bit) in bits.iter().enumerate() {
        if *bit {
            byte += 1 << i;
        }
    }
    byte
}

// Truth values as bits, eight to a byte.
pub(crate) fn packed(heap: Global, bits: &[bool]) -> Result<Vec<u8>, AllocError>
    ensures { IfOk result (λ v. v.items ≡ packed bits.now) }
{
    bits.chunks(8).map(byte).collect(heap)
}

// Whether all rows are there.
fn whole(there: &[bool]) -> bool
    ensures { result ≡ list_all (λ row. row) there.now }
{
    there.iter().all(|row| *row)
}

// The validity bytes of rows that are there or not: none where all are there.
pub(crate) fn validity(heap: Global, there: &[bool]) -> Result<Vec<u8>, AllocError>
    ensures { IfOk result (λ v. v.items ≡ validity_bytes there.now) }
{
    if whole(there) {
        return Ok(Vec::new(heap));
    }
    packed(heap, there)
}
