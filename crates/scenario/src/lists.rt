// Numbers, bytes and lists, as a scenario writes them.
ghost use Rattle.std.specs.Prelude.{◌≡◌, ◌≢◌, [], ◌∷◌, ◌++◌, List, ℕ, codes, encode_utf8, IsOkAnd};
ghost use Rattle.std.specs.List.{AllZip};
ghost use Rattle.hex.specs.declared.error.FromHexError.TheVariants as hex;
ghost use Rattle.scenario.specs.declared.Unread.TheVariants.{Malformed, OutOfMemory};
ghost use Rattle.scenario.specs.Reading.{Told, Found, ReadsNumber, SomeUnread, ReadsBytes};
ghost use Rattle.scenario.specs.Texts.{IsBytes, IsBytesOrNone, IsName, enclosed, field};
ghost use Rattle.scenario.specs.Words.{words as words_of};

use crate::Unread;
use crate::words::Words;
use hex::FromHexError;
use std::alloc::Global;
use std::str::FromStr;

impl From<FromHexError> for Unread {
    ghost from_gives = { λ why e. (why ≡ hex.OutOfMemory → e ≡ OutOfMemory) × (why ≢ hex.OutOfMemory → e ≡ Malformed) };

    // Digits that are none are malformed.
    fn from(error: FromHexError) -> Unread {
        match error {
            FromHexError::OutOfMemory => Unread::OutOfMemory,
            _ => Unread::Malformed,
        }
    }
}

// A decimal number of a type; there is no sign for a plus.
pub(crate) fn number<T: FromStr>(text: &str) -> Result<T, Unread>
where
    T::Err: Drop,
    ensures { ReadsNumber T.from_str_gives text.now result }
{
    if text.starts_with('+') {
        return Err(Unread::Malformed);
    }
    text.parse().map_err(|_| Unread::Malformed)
}

// The bytes of `x` and two hexadecimal digits for each.
pub(crate) fn bytes(heap: Global, text: &str) -> Result<Vec<u8>, Unread>
    ensures { ReadsBytes (λ v. v.items) text.now result }
{
    let digits = text.strip_prefix('x').ok_or(Unread::Malformed)?;
    Ok(hex::decode(heap, digits)?)
}

// The bytes, or no bytes for `none`.
pub(crate) fn bytes_or_none(heap: Global, text: &str) -> Result<Vec<u8>, Unread>
    ensures none { text.now ≡ codes "none" → IsOkAnd result (λ v. v.items ≡ []) }
    ensures some { text.now ≢ codes "none" → ReadsBytes (λ v. v.items) text.now result }
{
    if text == "none" {
        return Ok(Vec::new(heap));
    }
    bytes(heap, text)
}

// The number that the next field is, which has to have the name.
pub(crate) fn number_named<T: FromStr>(words: &mut Words, name: &str) -> Result<T, Unread>
where
    T::Err: Drop,
    ensures { Told result (λ n. (text : List ℕ) × (words_of words.old.rest.now ≡ field name.now text ∷ words_of words.new.rest.now) × ReadsNumber T.from_str_gives text (Ok n)) (IsName name.now → (text : List ℕ) → (more : List (List ℕ)) → words_of words.old.rest.now ≡ field name.now text ∷ more → ReadsNumber T.from_str_gives text (Err Malformed)) }
{
    number(words.named(name)?)
}

// The bytes that the next field is, which has to have the name.
pub(crate) fn bytes_named(heap: Global, words: &mut Words, name: &str) -> Result<Vec<u8>, Unread>
    ensures { Found result (λ v. (text : List ℕ) × (words_of words.old.rest.now ≡ field name.now text ∷ words_of words.new.rest.now) × IsBytes text v.items) (IsName name.now → (text : List ℕ) → (more : List (List ℕ)) → words_of words.old.rest.now ≡ field name.now text ∷ more → (bs : List ℕ) → IsBytes text bs → ⊥) }
{
    bytes(heap, words.named(name)?)
}

// The validity bytes that the next field is.
pub(crate) fn validity_named(heap: Global, words: &mut Words) -> Result<Vec<u8>, Unread>
    ensures { Found result (λ v. (text : List ℕ) × (words_of words.old.rest.now ≡ field (codes "validity") text ∷ words_of words.new.rest.now) × IsBytesOrNone text v.items) ((text : List ℕ) → (more : List (List ℕ)) → words_of words.old.rest.now ≡ field (codes "validity") text ∷ more → (bs : List ℕ) → IsBytesOrNone text bs → ⊥) }
{
    bytes_or_none(heap, words.named("validity")?)
}

// What stands between two brackets that begin and end a text.
pub(crate) fn between(text: &str, first: char, last: char) -> Result<&str, Unread>
    ensures { Told result (λ inner. text.now ≡ enclosed (encode_utf8 first) (encode_utf8 last) inner.now) ((inner : List ℕ) → text.now ≢ enclosed (encode_utf8 first) (encode_utf8 last) inner) }
{
    let rest = text.strip_prefix(first).ok_or(Unread::Malformed)?;
    rest.strip_suffix(last).ok_or(Unread::Malformed)
}

// A list of numbers in brackets.
pub(crate) fn numbers<T: FromStr + Drop>(heap: Global, text: &str) -> Result<Vec<T>, Unread>
where
    T::Err: Drop,
    ensures { Found result (λ v. (inner : List ℕ) × (text.now ≡ enclosed (91 ∷ []) (93 ∷ []) inner) × AllZip (λ word n. ReadsNumber T.from_str_gives word (Ok n)) (words_of inner) v.items) ((inner : List ℕ) → text.now ≡ enclosed (91 ∷ []) (93 ∷ []) inner → SomeUnread T.from_str_gives inner) }
{
    let mut list = Vec::new(heap);
    for word in Words::of(between(text, '[', ']')?) {
        list.push(number(word)?)?;
    }
    Ok(list)
}
