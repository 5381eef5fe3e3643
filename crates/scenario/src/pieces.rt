// Columns, as a scenario writes them: by their cells or by their parts.
ghost use Rattle.std.specs.Prelude.{◌≡◌, ◌≢◌, [], ◌∷◌, ◌++◌, List, ℕ, map};
ghost use Rattle.std.specs.List.{AllZip};
ghost use Rattle.column.specs.declared.Kind.{Kind};
ghost use Rattle.scenario.specs.Cells.{ColumnText, PartsText};
ghost use Rattle.scenario.specs.Names.{kind_name};
ghost use Rattle.scenario.specs.Reading.{Told, Found, Finds};
ghost use Rattle.scenario.specs.Shown.{IsColumnOver};
ghost use Rattle.scenario.specs.Texts.{IsCountsOrNone, enclosed};
ghost use Rattle.scenario.specs.Words.{words as words_of};
ghost use Rattle.scenario.specs.declared.pieces.Parts.{Parts};

use crate::cells::cells;
use crate::lists::{between, bytes_named, number_named, numbers, validity_named};
use crate::words::Words;
use crate::{Reads, Unread};
use column::{Column, ColumnFault, Kind};
use std::alloc::Global;

// The parts of a column; no validity bytes: none of its rows is null.
#[derive(Drop)]
pub struct Parts {
    pub kind: u32,
    pub rows: usize,
    pub validity: Vec<u8>,
    pub offsets: Vec<u32>,
    pub data: Vec<u8>,
}

impl Parts {
    // The column over the parts.
    pub fn column(&self) -> Result<Column<'_>, ColumnFault>
        ensures { IsColumnOver self.now result }
    {
        Column::new(
            self.kind,
            self.rows,
            &self.validity,
            &self.offsets,
            &self.data,
        )
    }
}

// The offsets, or no offsets for `none`.
fn offsets(heap: Global, text: &str) -> Result<Vec<u32>, Unread>
    ensures { Finds result (λ v. IsCountsOrNone 32 text.now v.items) }
{
    if text == "none" {
        return Ok(Vec::new(heap));
    }
    numbers(heap, text)
}

// The parts of a column, in their order.
fn read_parts(heap: Global, words: &mut Words) -> Result<Parts, Unread>
    ensures { Found result (λ parts. (fields : List (List ℕ)) × (words_of words.old.rest.now ≡ fields ++ words_of words.new.rest.now) × PartsText fields parts) ((parts : Parts) → (fields more : List (List ℕ)) → words_of words.old.rest.now ≡ fields ++ more → PartsText fields parts → ⊥) }
{
    Ok(Parts {
        kind: number_named(words, "kind")?,
        rows: number_named(words, "rows")?,
        validity: validity_named(heap, words)?,
        offsets: offsets(heap, words.named("offsets")?)?,
        data: bytes_named(heap, words, "data")?,
    })
}

// A column by its parts, which stand between braces.
fn by_parts(heap: Global, text: &str) -> Result<Parts, Unread>
    ensures { Finds result (λ parts. (inner : List ℕ) × (text.now ≡ enclosed (123 ∷ []) (125 ∷ []) inner) × PartsText (words_of inner) parts) }
{
    let mut words = Words::of(between(text, '{', '}')?);
    let parts = read_parts(heap, &mut words)?;
    words.ended()?;
    Ok(parts)
}

// The kind of a name.
pub(crate) fn kind_named(name: &str) -> Result<Kind, Unread>
    ensures { Told result (λ kind. name.now ≡ kind_name kind) ((kind : Kind) → name.now ≢ kind_name kind) }
{
    match name {
        "number" => Ok(Kind::Number),
        "bytes" => Ok(Kind::Bytes),
        "record" => Ok(Kind::Record),
        _ => Err(Unread::Malformed),
    }
}

// A column: by its parts, or by its cells, which are of the kind that is read unless another is named.
fn read_column(heap: Global, text: &str, read: Kind) -> Result<Parts, Unread>
    ensures { Finds result (λ parts. ColumnText read text.now parts) }
{
    if text.starts_with('{') {
        return by_parts(heap, text);
    }
    let (name, items) = text.split_once('[').ok_or(Unread::Malformed)?;
    let items = items.strip_suffix(']').ok_or(Unread::Malformed)?;
    let kind = if name.is_empty() {
        read
    } else {
        kind_named(name)?
    };
    cells(heap, items, kind)
}

// A value column.
pub(crate) fn read_values(heap: Global, text: &str, reads: Reads) -> Result<Parts, Unread>
    ensures { Finds result (λ parts. ColumnText reads.values text.now parts) }
{
    read_column(heap, text, reads.values)
}

// The order columns.
pub(crate) fn read_keys(heap: Global, texts: &[&str], reads: Reads) -> Result<Vec<Parts>, Unread>
    ensures { Finds result (λ keys. AllZip (ColumnText reads.keys) (map (λ t. t.now) texts.now) keys.items) }
{
    let mut keys = Vec::new(heap);
    for text in texts {
        keys.push(read_column(heap, text, reads.keys)?)?;
    }
    Ok(keys)
}
