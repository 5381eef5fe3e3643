//! Worked cases: what the definitions say of small inputs that a reader can follow by hand.
#![tactic(auto)]

ghost use Rattle.std.specs.Prelude.{◌≡◌, length};
ghost use Rattle.std.specs.List.{AllByRecursion};
ghost use Rattle.cases.specs.Cases.{cases, ComesOut};

/// How many worked cases there are; each comes out as the table says.
pub fn worked_cases() -> usize
    ensures count { result ≡ length cases }
    ensures hold { AllByRecursion ComesOut cases }
{
    18
}
