// Who is served under the rider, and with how much in bank it may begin.
ghost use Rattle.std.specs.Prelude.{◌≡◌, ◌≤◌};
ghost use Rattle.tariff.specs.Enrol.{stays_on_fbs, opening_too_high};
ghost use Rattle.tariff.specs.Bounds.{most_bcq};

use crate::amounts::{Dth, Quantity};
use crate::limits::Percent;

#[tactic(auto, unfolding(crate::specs::Enrol::stays_on_fbs))]
pub fn stays_on_fbs(process_only: bool, wishes: bool, mdq: Dth) -> bool
    ensures { result ≡ stays_on_fbs process_only wishes mdq }
{
    process_only | (mdq.0 < 1000) | ((mdq.0 < 6000) & !wishes)
}

// Asked of no month, so of a BCQ and not of Limits.
#[tactic(auto, unfolding(crate::specs::Enrol::opening_too_high))]
pub fn opening_too_high(opening: Quantity, bcq: Dth) -> bool
    requires { bcq.0 ≤ most_bcq }
    ensures { result ≡ opening_too_high opening bcq }
{
    Percent::of(25).of_capacity(bcq) < opening
}
