// What a grouped and an ungrouped LAST pick for one event, and the cranes that this releases.
ghost use Rattle.std.specs.Prelude.{◌≡◌};
ghost use Rattle.quay.specs.Cranes.{crane_of, cranes_of};

use crate::buffers::Numbers;
use crate::rules::Rule;

// What the values of an emission say in one row: the rule that won there, if the row is not null.
pub fn pick(values: &Numbers, row: usize) -> Option<Rule> {
    let code = values.column().ok()?.number(row)?;
    Rule::try_from(code).ok()
}

// The crane that a rule releases where it is picked.
pub fn crane(rule: Rule) -> u32
    ensures { result ≡ crane_of rule }
{
    match rule {
        Rule::Breakdown => 1,
        _ => 2,
    }
}

// The rule that each of the two picks.
#[derive(Clone, Copy)]
pub struct Picks {
    pub grouped: Rule,
    pub ungrouped: Rule,
}

impl Picks {
    // How many cranes both picks release.
    pub fn cranes(&self) -> u32
        ensures { result ≡ cranes_of self.now.grouped self.now.ungrouped }
    {
        if crane(self.grouped) == crane(self.ungrouped) {
            1
        } else {
            2
        }
    }
}
