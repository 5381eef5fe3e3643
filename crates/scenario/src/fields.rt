// The fields of a call, in any order.
ghost use Rattle.std.specs.Prelude.{◌≡◌, ◌==◌, ◌||◌, not, length, List, ℕ, [], ◌∷◌, ◌++◌, IsSome, IsOkAnd, is_ok, if◌then◌else◌};
ghost use Rattle.std.specs.Option.{is_some};
ghost use Rattle.scenario.specs.Plain.{Fieldless};
ghost use Rattle.scenario.specs.Fields.{Texts, texts_of, Gathers};
ghost use Rattle.scenario.specs.Reading.{Told, Found};
ghost use Rattle.scenario.specs.Words.{words as words_of};

use crate::Unread;
use crate::words::Words;
use std::alloc::Global;

// The texts of the fields that stand there; the keys from the first to the last.
#[derive(Drop)]
pub(crate) struct Fields<'a> {
    pub(crate) values: Option<&'a str>,
    pub(crate) keys: Vec<&'a str>,
    pub(crate) groups: Option<&'a str>,
    pub(crate) total: Option<&'a str>,
    pub(crate) filter: Option<&'a str>,
    pub(crate) flags: Option<&'a str>,
    pub(crate) room: Option<&'a str>,
}

// Puts the text of a field in its place, where none stands there yet.
fn fill<'a>(place: &mut Option<&'a str>, text: &'a str) -> Result<(), Unread>
    ensures answer { Told result (λ _. place.old ≡ None) (IsSome place.old) }
    ensures after { place.new ≡ (if is_ok result then Some text.entry else place.old) }
{
    if place.is_some() {
        return Err(Unread::Malformed);
    }
    *place = Some(text);
    Ok(())
}

impl<'a> Fields<'a> {
    // No field.
    fn none(heap: Global) -> Fields<'a>
        ensures { Fieldless result }
    {
        Fields {
            values: None,
            keys: Vec::new(heap),
            groups: None,
            total: None,
            filter: None,
            flags: None,
            room: None,
        }
    }

    // Takes a field in, of which there is one at most, but for keys.
    fn put(&mut self, word: &'a str) -> Result<(), Unread>
        ensures { Found result (λ _. (ws : List (List ℕ)) → Gathers ws (texts_of self.old) → Gathers (ws ++ word.now ∷ []) (texts_of self.new)) ((ws more : List (List ℕ)) → Gathers ws (texts_of self.old) → (texts : Texts) → Gathers (ws ++ word.now ∷ more) texts → ⊥) }
    {
        let (name, text) = word.split_once('=').ok_or(Unread::Malformed)?;
        match name {
            "values" => fill(&mut self.values, text),
            "key" => Ok(self.keys.push(text)?),
            "groups" => fill(&mut self.groups, text),
            "total" => fill(&mut self.total, text),
            "filter" => fill(&mut self.filter, text),
            "flags" => fill(&mut self.flags, text),
            "room" => fill(&mut self.room, text),
            _ => Err(Unread::Malformed),
        }
    }

    // The fields that some words are.
    pub(crate) fn of(heap: Global, words: Words<'a>) -> Result<Fields<'a>, Unread>
        ensures none { words_of words.entry.rest.now ≡ [] → IsOkAnd result Fieldless }
        ensures some { Found result (λ fields. Gathers (words_of words.entry.rest.now) (texts_of fields)) ((texts : Texts) → Gathers (words_of words.entry.rest.now) texts → ⊥) }
    {
        let mut fields = Fields::none(heap);
        for word in words {
            fields.put(word)?;
        }
        Ok(fields)
    }

    // Whether there is a field that only rows of groups have.
    pub(crate) fn has_groups(&self) -> bool
        ensures { result ≡ (is_some self.now.groups || is_some self.now.total) }
    {
        self.groups.is_some() || self.total.is_some()
    }

    // Whether there is a field of columns.
    pub(crate) fn has_columns(&self) -> bool
        ensures { result ≡ (is_some self.now.values || not (length self.now.keys.items == 0)) }
    {
        self.values.is_some() || !self.keys.is_empty()
    }

    // Whether there is a field of truth values.
    pub(crate) fn has_marks(&self) -> bool
        ensures { result ≡ (is_some self.now.filter || is_some self.now.flags) }
    {
        self.filter.is_some() || self.flags.is_some()
    }
}
