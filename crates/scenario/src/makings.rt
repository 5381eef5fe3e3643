// How an accumulator is made.
ghost use Rattle.std.specs.Prelude.{◌≡◌, ◌≢◌, ◌++◌, Bool, codes};
ghost use Rattle.tables.specs.declared.Sorting.{Sorting};
ghost use Rattle.scenario.specs.declared.makings.Form.{Form};
ghost use Rattle.scenario.specs.declared.makings.Making.{Making};
ghost use Rattle.scenario.specs.declared.makings.Order.{Order};
ghost use Rattle.scenario.specs.Accumulators.{reads_of, pre_ordered as ordered, Writes, Makes};
ghost use Rattle.scenario.specs.Names.{sorting_name, side_name, form_name, policy_words};
ghost use Rattle.scenario.specs.Reading.{Told};
ghost use Rattle.scenario.specs.Words.{words as words_of};

use crate::pieces::kind_named;
use crate::words::Words;
use crate::{Reads, Unread};
use column::Kind;
use tables::Sorting;

// The sorting of an order column that is not read.
const PLAIN: Sorting = Sorting {
    descending: false,
    nulls_first: false,
};

// Whether an accumulator is of groups or alone; one alone may be given its rows in order.
#[derive(Clone, Copy)]
pub enum Form {
    Grouped,
    Single { pre_ordered: bool },
}

// A row order: of the first `count` of three sortings of numbers, or of text.
#[derive(Clone, Copy)]
pub enum Order {
    Numbers { sorts: [Sorting; 3], count: usize },
    Text { sort: Sorting },
}

// What an accumulator is made of: `first` is FIRST, else LAST.
#[derive(Clone, Copy)]
pub struct Making {
    pub form: Form,
    pub first: bool,
    pub values: Kind,
    pub order: Order,
    pub ignore_nulls: bool,
}

impl Making {
    // What the accumulator reads.
    pub fn reads(&self) -> Reads
        ensures { result ≡ reads_of self.now }
    {
        let (keys, count) = match self.order {
            Order::Numbers { sorts: _, count } => (Kind::Number, count),
            Order::Text { sort: _ } => (Kind::Bytes, 1),
        };
        let alone = match self.form {
            Form::Grouped => false,
            Form::Single { pre_ordered: _ } => true,
        };
        Reads {
            alone,
            values: self.values,
            keys,
            count,
        }
    }
}

// One option of an order column.
fn read_sorting(text: &str) -> Result<Sorting, Unread>
    ensures { Told result (λ sort. text.now ≡ sorting_name sort) ((sort : Sorting) → text.now ≢ sorting_name sort) }
{
    let (descending, nulls_first) = match text {
        "asc-last" => (false, false),
        "asc-first" => (false, true),
        "desc-last" => (true, false),
        "desc-first" => (true, true),
        _ => return Err(Unread::Malformed),
    };
    Ok(Sorting {
        descending,
        nulls_first,
    })
}

// A row order of numbers, of one to three options that commas part.
fn numbers(text: &str) -> Result<Order, Unread>
    ensures { Told result (λ order. Writes order (codes "number:" ++ text.now)) ((order : Order) → Writes order (codes "number:" ++ text.now) → ⊥) }
{
    let mut sorts = [PLAIN; 3];
    let mut count = 0;
    for option in text.split(',') {
        if count >= 3 {
            return Err(Unread::Malformed);
        }
        sorts[count] = read_sorting(option)?;
        count += 1;
    }
    Ok(Order::Numbers { sorts, count })
}

// A row order.
fn read_order(text: &str) -> Result<Order, Unread>
    ensures { Told result (λ order. Writes order text.now) ((order : Order) → Writes order text.now → ⊥) }
{
    match text.split_once(':') {
        Some(("number", options)) => numbers(options),
        Some(("text", option)) => Ok(Order::Text {
            sort: read_sorting(option)?,
        }),
        _ => Err(Unread::Malformed),
    }
}

// Whether nulls are ignored, and whether rows come in order: the words behind a making.
fn policies(words: &mut Words) -> Result<(bool, bool), Unread>
    ensures { Told result (λ policy. words_of words.old.rest.now ≡ policy_words policy.0 policy.1) ((nulls ordered : Bool) → words_of words.old.rest.now ≢ policy_words nulls ordered) }
{
    match (words.next(), words.next(), words.next()) {
        (None, _, _) => Ok((false, false)),
        (Some("ignore-nulls"), None, _) => Ok((true, false)),
        (Some("pre-ordered"), None, _) => Ok((false, true)),
        (Some("ignore-nulls"), Some("pre-ordered"), None) => Ok((true, true)),
        _ => Err(Unread::Malformed),
    }
}

// The form of a name; only an accumulator alone may be given its rows in order.
fn form_named(name: &str, pre_ordered: bool) -> Result<Form, Unread>
    ensures { Told result (λ form. (name.now ≡ form_name form) × (ordered form ≡ pre_ordered)) ((form : Form) → name.now ≡ form_name form → ordered form ≢ pre_ordered) }
{
    match name {
        "grouped" if !pre_ordered => Ok(Form::Grouped),
        "single" => Ok(Form::Single { pre_ordered }),
        _ => Err(Unread::Malformed),
    }
}

// Whether the word is FIRST; else it is LAST.
fn is_first(word: &str) -> Result<bool, Unread>
    ensures { Told result (λ first. word.now ≡ side_name first) ((first : Bool) → word.now ≢ side_name first) }
{
    match word {
        "first" => Ok(true),
        "last" => Ok(false),
        _ => Err(Unread::Malformed),
    }
}

// How an accumulator is made, by the words behind the command's.
pub(crate) fn read_making(words: &mut Words) -> Result<Making, Unread>
    ensures { Told result (λ making. Makes making (words_of words.old.rest.now)) ((making : Making) → Makes making (words_of words.old.rest.now) → ⊥) }
{
    let name = words.needed()?;
    let first = is_first(words.needed()?)?;
    let values = kind_named(words.needed()?)?;
    let order = read_order(words.needed()?)?;
    let (ignore_nulls, pre_ordered) = policies(words)?;
    Ok(Making {
        form: form_named(name, pre_ordered)?,
        first,
        values,
        order,
        ignore_nulls,
    })
}
