// Columns of truth values, as a scenario writes them: by their cells or by their parts.
ghost use Rattle.std.specs.Prelude.{◌≡◌, ◌≢◌, [], ◌∷◌, ◌++◌, List, ℕ, Bool, Some, length, map};
ghost use Rattle.std.specs.Option.{option_copied};
ghost use Rattle.layout.specs.Layout.{packed};
ghost use Rattle.scenario.specs.Calls.{Shows};
ghost use Rattle.scenario.specs.Cells.{Marked, MarkParts, MarksText};
ghost use Rattle.scenario.specs.Names.{mark_name};
ghost use Rattle.scenario.specs.Packing.{validity_bytes};
ghost use Rattle.scenario.specs.Reading.{Told, Found, Finds};
ghost use Rattle.scenario.specs.Shown.{IsFlagsOver};
ghost use Rattle.scenario.specs.Texts.{enclosed};
ghost use Rattle.scenario.specs.Words.{words as words_of};
ghost use Rattle.scenario.specs.declared.marking.Marks.{Marks};

use crate::Unread;
use crate::lists::{between, bytes_named, number_named, validity_named};
use crate::packing::{packed, validity};
use crate::words::Words;
use column::{BoolColumn, ColumnFault};
use std::alloc::Global;

// The parts of a column of truth values; no validity bytes: none of its rows is null.
#[derive(Drop)]
pub struct Marks {
    pub rows: usize,
    pub validity: Vec<u8>,
    pub bits: Vec<u8>,
}

impl Marks {
    // The column over the parts.
    pub fn column(&self) -> Result<BoolColumn<'_>, ColumnFault>
        ensures { IsFlagsOver self.now result }
    {
        BoolColumn::new(self.rows, &self.validity, &self.bits)
    }
}

// A cell's bit, and whether the cell is not null.
fn mark(text: &str) -> Result<(bool, bool), Unread>
    ensures { Told result (λ mark. text.now ≡ mark_name mark.0 mark.1) ((bit known : Bool) → text.now ≢ mark_name bit known) }
{
    match text {
        "1" => Ok((true, true)),
        "0" => Ok((false, true)),
        "-" => Ok((false, false)),
        "n" => Ok((true, false)),
        _ => Err(Unread::Malformed),
    }
}

// Adds a cell to a column's bits, and to which of them are known.
fn push_mark(item: &str, bits: &mut Vec<bool>, there: &mut Vec<bool>) -> Result<(), Unread>
    ensures { Found result (λ _. (bit known : Bool) × (item.now ≡ mark_name bit known) × (bits.new.items ≡ bits.old.items ++ bit ∷ []) × (there.new.items ≡ there.old.items ++ known ∷ [])) ((bit known : Bool) → item.now ≢ mark_name bit known) }
{
    let (bit, known) = mark(item)?;
    bits.push(bit)?;
    Ok(there.push(known)?)
}

// A column of some bits, of which some are known.
fn of_bits(heap: Global, bits: &[bool], there: &[bool]) -> Result<Marks, Unread>
    ensures { Found result (λ marks. (marks.rows ≡ length bits.now) × (marks.validity.items ≡ validity_bytes there.now) × (marks.bits.items ≡ packed bits.now)) ⊥ }
{
    Ok(Marks {
        rows: bits.len(),
        validity: validity(heap, there)?,
        bits: packed(heap, bits)?,
    })
}

// A column of truth values by its cells.
fn by_cells(heap: Global, text: &str) -> Result<Marks, Unread>
    ensures { Finds result (λ marks. (inner : List ℕ) × (cs : List (Bool × Bool)) × (text.now ≡ enclosed (91 ∷ []) (93 ∷ []) inner) × (words_of inner ≡ map (λ c. mark_name c.0 c.1) cs) × Marked cs marks) }
{
    let mut bits = Vec::new(heap);
    let mut there = Vec::new(heap);
    for item in Words::of(between(text, '[', ']')?) {
        push_mark(item, &mut bits, &mut there)?;
    }
    of_bits(heap, &bits, &there)
}

// The parts of a column of truth values, in their order.
fn read_parts(heap: Global, words: &mut Words) -> Result<Marks, Unread>
    ensures { Found result (λ marks. (fields : List (List ℕ)) × (words_of words.old.rest.now ≡ fields ++ words_of words.new.rest.now) × MarkParts fields marks) ((marks : Marks) → (fields more : List (List ℕ)) → words_of words.old.rest.now ≡ fields ++ more → MarkParts fields marks → ⊥) }
{
    let rows = number_named(words, "rows")?;
    let bits = bytes_named(heap, words, "bits")?;
    Ok(Marks {
        rows,
        validity: validity_named(heap, words)?,
        bits,
    })
}

// A column of truth values by its parts, which stand between braces.
fn by_parts(heap: Global, text: &str) -> Result<Marks, Unread>
    ensures { Finds result (λ marks. (inner : List ℕ) × (text.now ≡ enclosed (123 ∷ []) (125 ∷ []) inner) × MarkParts (words_of inner) marks) }
{
    let mut words = Words::of(between(text, '{', '}')?);
    let marks = read_parts(heap, &mut words)?;
    words.ended()?;
    Ok(marks)
}

// A column of truth values.
fn read_marks(heap: Global, text: &str) -> Result<Marks, Unread>
    ensures { Finds result (λ marks. MarksText text.now marks) }
{
    if text.starts_with('{') {
        by_parts(heap, text)
    } else {
        by_cells(heap, text)
    }
}

// A column of truth values that may be left out.
pub(crate) fn read_filter(heap: Global, text: Option<&str>) -> Result<Option<Marks>, Unread>
    ensures { Finds result (λ marks. Shows (option_copied text.entry) marks) }
{
    match text {
        None => Ok(None),
        Some(text) => Ok(Some(read_marks(heap, text)?)),
    }
}

// A column of truth values that has to be there.
pub(crate) fn read_flags(heap: Global, text: Option<&str>) -> Result<Marks, Unread>
    ensures { Finds result (λ marks. Shows (option_copied text.entry) (Some marks)) }
{
    read_marks(heap, text.ok_or(Unread::Malformed)?)
}
