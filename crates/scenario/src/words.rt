// Words: what spaces part, but for those between brackets.
ghost use Rattle.std.specs.Prelude.{◌≡◌, ◌≢◌, ℕ, ◌+◌, List, [], ◌∷◌, length, take, drop};
ghost use Rattle.std.specs.Iterator.{YieldsFirstBy, item_count};
ghost use Rattle.std.specs.Str.{IsCharBoundary};
ghost use Rattle.scenario.specs.Reading.{Told};
ghost use Rattle.scenario.specs.Texts.{IsName, field};
ghost use Rattle.scenario.specs.Words.{word_length, words};

use crate::Unread;

// The words of a text that are left to read.
#[derive(Drop)]
pub(crate) struct Words<'a> {
    rest: &'a str,
}

// Where the first word of a text ends: at the first space that stands in no bracket.
fn word_end(text: &str) -> usize
    ensures length { result ≡ word_length 0 text.now }
    ensures boundary { IsCharBoundary text.now result }
{
    let mut depth = 0usize;
    for (at, byte) in text.as_bytes().iter().enumerate() {
        match *byte {
            b'[' | b'{' => depth += 1,
            b']' | b'}' => depth = depth.saturating_sub(1),
            b' ' if depth == 0 => return at,
            _ => {}
        }
    }
    text.len()
}

// The first word of a text, and what follows the space behind it.
fn cut(text: &str) -> (&str, &str)
    ensures word { result.0.now ≡ take (word_length 0 text.now) text.now }
    ensures rest { result.1.now ≡ drop (word_length 0 text.now + 1) text.now }
{
    let (word, rest) = text.split_at(word_end(text));
    (word, rest.strip_prefix(' ').unwrap_or(""))
}

impl<'a> Words<'a> {
    // The words of a text.
    pub(crate) fn of(text: &'a str) -> Words<'a>
        ensures { result.rest ≡ text.entry }
    {
        Words { rest: text }
    }

    // The next word, which has to be there.
    pub(crate) fn needed(&mut self) -> Result<&'a str, Unread>
        ensures { Told result (λ word. words self.old.rest.now ≡ word.now ∷ words self.new.rest.now) (words self.old.rest.now ≡ []) }
    {
        self.next().ok_or(Unread::Malformed)
    }

    // No word is left.
    pub(crate) fn ended(&mut self) -> Result<(), Unread>
        ensures { Told result (λ _. words self.old.rest.now ≡ []) (words self.old.rest.now ≢ []) }
    {
        match self.next() {
            None => Ok(()),
            Some(_) => Err(Unread::Malformed),
        }
    }

    // The text of the next field, which has to have the name.
    pub(crate) fn named(&mut self, name: &str) -> Result<&'a str, Unread>
        ensures { Told result (λ text. words self.old.rest.now ≡ field name.now text.now ∷ words self.new.rest.now) (IsName name.now → (text : List ℕ) → (more : List (List ℕ)) → words self.old.rest.now ≢ field name.now text ∷ more) }
    {
        match self.needed()?.split_once('=') {
            Some((found, text)) if found == name => Ok(text),
            _ => Err(Unread::Malformed),
        }
    }
}

impl<'a> Iterator for Words<'a> {
    type Item = &'a str;

    ghost next_gives = { YieldsFirstBy (λ x. x.now) (λ s. words s.rest.now) };

    ghost remaining = { item_count (λ s. words s.rest.now) };

    // The next word.
    fn next(&mut self) -> Option<&'a str> {
        let text = self.rest.trim_start_matches(' ');
        if text.is_empty() {
            self.rest = text;
            return None;
        }
        let (word, rest) = cut(text);
        self.rest = rest;
        Some(word)
    }
}
