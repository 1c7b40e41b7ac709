// A day's back-cast, worked out from its temperature. It needs no ledger.
#![tactic(auto)]

mod answers;
mod curves;
mod doubles;

ghost use Rattle.std.specs.Prelude.{◌≡◌};
ghost use Rattle.backcast.specs.Answers.{back_cast};
ghost use Rattle.backcast.specs.GreatestWhole.{EveryAnswer, OnlyOne};
ghost use Rattle.backcast.specs.ExactCase.{WholeNumbersAreDoubles, WholeNumbersAreExact};
ghost use Rattle.backcast.specs.WorkedCases.{WorkedCases};

// The types that cross the boundary, and why there is no back-cast; the functions that cross it stand below, and none of them requires anything.
pub use answers::{BackCast, NoBackCast};
pub use curves::LoadCurve;

// The back-cast at temperature f; 31 where one of the four is no number, 32 where the load is no quantity of gas.
pub fn back_cast(curve: LoadCurve, f: f64) -> BackCast
    ensures { result ≡ back_cast curve f }
{
    BackCast::from(curve.quantity(f))
}

// Its answer is the load rounded down: the one n with n ≤ load < n + 1.
pub fn greatest_whole()
    ensures every_answer { EveryAnswer }
    ensures only_one { OnlyOne }
{}

// Of whole numbers the answer is that of the integers.
pub fn exact_case()
    ensures doubles { WholeNumbersAreDoubles }
    ensures exact { WholeNumbersAreExact }
{}

// Cases worked out in advance.
pub fn worked_cases()
    ensures { WorkedCases }
{}
