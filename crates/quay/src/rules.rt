// The rules that put rows into events.
ghost use Rattle.std.specs.Prelude.{◌≡◌};
ghost use Rattle.quay.specs.Rules.{rule_code, Names};
ghost use Rattle.quay.specs.Matches.{holds_at};

use layout::FlagSource;
use std::fmt;

// A rule that can match an event.
#[derive(Clone, Copy)]
pub enum Rule {
    Breakdown,
    ShiftEnd,
    BerthChange,
    Weather,
}

// A number that stands for no rule.
#[derive(Clone, Copy)]
pub struct NoRule;

// The number that stands for a rule in a value column.
impl From<Rule> for i64 {
    ghost from_gives = { λ rule code. code ≡ rule_code rule };

    fn from(rule: Rule) -> i64 {
        match rule {
            Rule::Breakdown => 1,
            Rule::ShiftEnd => 2,
            Rule::BerthChange => 3,
            Rule::Weather => 4,
        }
    }
}

// The rule of a number.
impl TryFrom<i64> for Rule {
    type Error = NoRule;

    ghost try_from_gives = { Names };

    fn try_from(code: i64) -> Result<Rule, NoRule> {
        match code {
            1 => Ok(Rule::Breakdown),
            2 => Ok(Rule::ShiftEnd),
            3 => Ok(Rule::BerthChange),
            4 => Ok(Rule::Weather),
            _ => Err(NoRule),
        }
    }
}

impl fmt::Display for Rule {
    fn fmt<W: fmt::Write>(&self, f: &mut fmt::Formatter<W>) -> fmt::Result {
        f.write_str(match self {
            Rule::Breakdown => "breakdown",
            Rule::ShiftEnd => "shift end",
            Rule::BerthChange => "berth change",
            Rule::Weather => "weather stop",
        })
    }
}

// A rule that matched an event, with its rank; `holds` is the rule's own condition, by which the batch is filtered.
#[derive(Clone, Copy)]
pub struct Match {
    pub event: usize,
    pub rule: Rule,
    pub rank: i64,
    pub holds: bool,
}

// The conditions of some matches, one for each.
#[derive(Clone, Copy)]
pub struct Conditions<'a> {
    pub matches: &'a [Match],
}

impl<'a> FlagSource for Conditions<'a> {
    ghost shows = { λ c row. holds_at c.matches.now row };

    fn flag(&self, row: usize) -> Option<bool> {
        Some(self.matches.get(row)?.holds)
    }
}
