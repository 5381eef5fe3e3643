// A column by its cells.
ghost use Rattle.std.specs.Prelude.{◌≡◌, ◌≢◌, ◌+◌, ◌*◌, ◌^◌, ◌<◌, ◌≤◌, ℕ, List, [], ◌∷◌, ◌++◌, not, length, codes, slice_index, slice_index_or, MatchOption, MatchResult};
ghost use Rattle.std.specs.Fn.{FnOnceReturnsAt};
ghost use Rattle.std.specs.List.{AllZip};
ghost use Rattle.column.specs.Cells.{Cell, fields_cell, is_null, numbers, records, strings};
ghost use Rattle.column.specs.Seen.{kind_seen};
ghost use Rattle.layout.specs.Layout.{bit, has_field, field_bytes, number_content, record_content, string_content};
ghost use Rattle.scenario.specs.Cells.{IsField, IsCell, Holds};
ghost use Rattle.scenario.specs.Packing.{validity_bytes};
ghost use Rattle.scenario.specs.Reading.{Told, Found, Tells, Finds};
ghost use Rattle.scenario.specs.Texts.{IsInteger};
ghost use Rattle.scenario.specs.Words.{words};

use crate::Unread;
use crate::lists::{bytes, number};
use crate::packing::{byte, validity};
use crate::pieces::Parts;
use crate::words::Words;
use column::Kind;
use std::alloc::Global;

// A cell that is read by `read`; none where it is null.
fn cell<T, F: FnOnce(&str) -> Result<T, Unread>>(text: &str, read: F) -> Result<Option<T>, Unread>
where
    F: Drop,
    requires { F.IsAlwaysCallable read }
    ensures { MatchResult result (λ cell. MatchOption cell (text.now ≡ codes "null") (λ value. (text.now ≢ codes "null") × FnOnceReturnsAt F.FnOnce read text.now (Ok value))) (λ why. (text.now ≢ codes "null") × FnOnceReturnsAt F.FnOnce read text.now (Err why)) }
{
    if text == "null" {
        return Ok(None);
    }
    Ok(Some(read(text)?))
}

// A column of a kind, by its rows: whether each is there, and what they hold.
fn column(
    heap: Global,
    kind: u32,
    there: &[bool],
    offsets: Vec<u32>,
    data: Vec<u8>,
) -> Result<Parts, Unread>
    ensures { Found result (λ p. (p.kind ≡ kind) × (p.rows ≡ length there.now) × (p.validity.items ≡ validity_bytes there.now) × (p.offsets.items ≡ offsets.items) × (p.«data».items ≡ «data».items)) ⊥ }
{
    Ok(Parts {
        kind,
        rows: there.len(),
        validity: validity(heap, there)?,
        offsets,
        data,
    })
}

// A number of 64 bits.
fn integer(text: &str) -> Result<i64, Unread>
    ensures { Tells result (λ z. IsInteger text.now z) }
{
    number(text)
}

// The bytes of a number, zero where it is absent.
fn number_bytes(number: Option<i64>) -> [u8; 8]
    ensures { result ≡ field_bytes number }
{
    number.unwrap_or(0).to_le_bytes()
}

// Adds a number, or a null, to a column's rows.
fn push_number(item: &str, there: &mut Vec<bool>, data: &mut Vec<u8>) -> Result<(), Unread>
    ensures { Found result (λ _. (c : Cell) × IsCell numbers item.now c × (there.new.items ≡ there.old.items ++ not (is_null c) ∷ []) × («data».new.items ≡ «data».old.items ++ number_content c)) ((c : Cell) → IsCell numbers item.now c → ⊥) }
{
    let cell = cell(item, integer)?;
    there.push(cell.is_some())?;
    Ok(data.extend_from_slice(&number_bytes(cell))?)
}

// A column of numbers.
fn numbers(heap: Global, items: &str) -> Result<Parts, Unread>
    ensures { Finds result (λ p. (cs : List Cell) × AllZip (IsCell numbers) (words items.now) cs × Holds numbers cs p) }
{
    let mut there = Vec::new(heap);
    let mut data = Vec::new(heap);
    for item in Words::of(items) {
        push_number(item, &mut there, &mut data)?;
    }
    column(heap, 1, &there, Vec::new(heap), data)
}

// An end of a byte string, which 32 bits have to say.
fn end(bytes: usize) -> Result<u32, Unread>
    ensures { Told result (λ end. (end ≡ bytes) × (bytes < 2 ^ 32)) (2 ^ 32 ≤ bytes) }
{
    u32::try_from(bytes).map_err(|_| Unread::Malformed)
}

// Adds the bytes of a cell, and whether it is there: how many bytes there are then.
fn push_bytes(
    heap: Global,
    item: &str,
    there: &mut Vec<bool>,
    data: &mut Vec<u8>,
) -> Result<u32, Unread>
    ensures { Found result (λ end. (c : Cell) × IsCell strings item.now c × (there.new.items ≡ there.old.items ++ not (is_null c) ∷ []) × («data».new.items ≡ «data».old.items ++ string_content c) × (end ≡ length «data».new.items) × (length «data».new.items < 2 ^ 32)) ((c : Cell) → IsCell strings item.now c → 2 ^ 32 ≤ length («data».old.items ++ string_content c)) }
{
    let cell = cell(item, |text| bytes(heap, text))?;
    there.push(cell.is_some())?;
    if let Some(bytes) = cell {
        data.extend_from_slice(&bytes)?;
    }
    end(data.len())
}

// Adds a byte string, or a null, to a column's rows.
fn push_string(
    heap: Global,
    item: &str,
    there: &mut Vec<bool>,
    offsets: &mut Vec<u32>,
    data: &mut Vec<u8>,
) -> Result<(), Unread>
    ensures { Found result (λ _. (c : Cell) × IsCell strings item.now c × (there.new.items ≡ there.old.items ++ not (is_null c) ∷ []) × (offsets.new.items ≡ offsets.old.items ++ length «data».new.items ∷ []) × («data».new.items ≡ «data».old.items ++ string_content c) × (length «data».new.items < 2 ^ 32)) ((c : Cell) → IsCell strings item.now c → 2 ^ 32 ≤ length («data».old.items ++ string_content c)) }
{
    Ok(offsets.push(push_bytes(heap, item, there, data)?)?)
}

// A column of byte strings.
fn strings(heap: Global, items: &str) -> Result<Parts, Unread>
    ensures { Finds result (λ p. (cs : List Cell) × AllZip (IsCell strings) (words items.now) cs × Holds strings cs p) }
{
    let mut offsets = vec![in heap; 0u32]?;
    let mut there = Vec::new(heap);
    let mut data = Vec::new(heap);
    for item in Words::of(items) {
        push_string(heap, item, &mut there, &mut offsets, &mut data)?;
    }
    column(heap, 2, &there, offsets, data)
}

// A field of a record; none where it is absent.
fn field(text: &str) -> Result<Option<i64>, Unread>
    ensures { Tells result (λ f. IsField text.now f) }
{
    if text == "_" {
        return Ok(None);
    }
    Ok(Some(integer(text)?))
}

// The texts before and behind a slash.
fn parted(text: &str) -> Result<(&str, &str), Unread>
    ensures { Told result (λ parts. (text.now ≡ parts.0.now ++ 47 ∷ parts.1.now) × ((i : ℕ) → i < length parts.0.now → slice_index parts.0.now i ≢ 47)) ((front back : List ℕ) → text.now ≢ front ++ 47 ∷ back) }
{
    text.split_once('/').ok_or(Unread::Malformed)
}

// The second and the third field of a record.
fn other_fields(text: &str) -> Result<(Option<i64>, Option<i64>), Unread>
    ensures { Tells result (λ fs. (second third : List ℕ) × (text.now ≡ second ++ 47 ∷ third) × IsField second fs.0 × IsField third fs.1) }
{
    let (second, third) = parted(text)?;
    Ok((field(second)?, field(third)?))
}

// The three fields of a record.
fn fields(text: &str) -> Result<[Option<i64>; 3], Unread>
    ensures { Tells result (λ fs. IsCell records text.now (fields_cell (Some fs))) }
{
    let (first, others) = parted(text)?;
    let first = field(first)?;
    let (second, third) = other_fields(others)?;
    Ok([first, second, third])
}

// Which fields of a record are there: a bit for each.
fn presence(fields: [Option<i64>; 3]) -> u8
    ensures { result ≡ bit (has_field (slice_index_or fields 0 None)) + 2 * bit (has_field (slice_index_or fields 1 None)) + 4 * bit (has_field (slice_index_or fields 2 None)) }
{
    byte(&fields.map(|field| field.is_some()))
}

// Adds the bytes of a record's fields, of which some may be absent.
fn push_fields(fields: [Option<i64>; 3], data: &mut Vec<u8>) -> Result<(), Unread>
    ensures { Found result (λ _. «data».new.items ≡ «data».old.items ++ record_content (fields_cell (Some fields))) ⊥ }
{
    data.push(presence(fields))?;
    for field in fields {
        data.extend_from_slice(&number_bytes(field))?;
    }
    Ok(())
}

// Adds a record, or a null, to a column's rows.
fn push_record(item: &str, there: &mut Vec<bool>, data: &mut Vec<u8>) -> Result<(), Unread>
    ensures { Found result (λ _. (c : Cell) × IsCell records item.now c × (there.new.items ≡ there.old.items ++ not (is_null c) ∷ []) × («data».new.items ≡ «data».old.items ++ record_content c)) ((c : Cell) → IsCell records item.now c → ⊥) }
{
    let cell = cell(item, fields)?;
    there.push(cell.is_some())?;
    push_fields(cell.unwrap_or([None; 3]), data)
}

// A column of records.
fn records(heap: Global, items: &str) -> Result<Parts, Unread>
    ensures { Finds result (λ p. (cs : List Cell) × AllZip (IsCell records) (words items.now) cs × Holds records cs p) }
{
    let mut there = Vec::new(heap);
    let mut data = Vec::new(heap);
    for item in Words::of(items) {
        push_record(item, &mut there, &mut data)?;
    }
    column(heap, 3, &there, Vec::new(heap), data)
}

// A column of a kind, by its cells.
pub(crate) fn cells(heap: Global, items: &str, kind: Kind) -> Result<Parts, Unread>
    ensures { Finds result (λ p. (cs : List Cell) × AllZip (IsCell (kind_seen kind)) (words items.now) cs × Holds (kind_seen kind) cs p) }
{
    match kind {
        Kind::Number => numbers(heap, items),
        Kind::Bytes => strings(heap, items),
        Kind::Record => records(heap, items),
    }
}
