// The month's limits on a bank, in percent of the BCQ.
ghost use Rattle.std.specs.Prelude.{◌≡◌, ◌≤◌, ◌↔◌, IsSome, IfSome};
ghost use Rattle.tariff.specs.Amounts.{percent};
ghost use Rattle.tariff.specs.Limits.{above_maximum, below_minimum};
ghost use Rattle.tariff.specs.Months.{minimum, maximum};
ghost use Rattle.tariff.specs.Bounds.{most_bcq};

use crate::amounts::{Dth, Quantity, Units};
use crate::bounds::MOST_BCQ;
use crate::months::Month;

// A percentage. The rider has none above 102, so a percentage of a capacity always fits.
#[derive(Clone, Copy, PartialEq, Eq, PartialOrd, Ord, Debug)]
pub struct Percent {
    pub hundredths: u64,
    ghost fits: { hundredths ≤ 102 },
}

impl Percent {
    // Not a From: it asks something of its caller, as do the other `of` here.
    pub fn of(hundredths: u64) -> Percent
        requires { hundredths ≤ 102 }
        ensures { result.hundredths ≡ hundredths }
    {
        Percent { hundredths }
    }

    // A capacity of either range, MDDQ or BCQ, so no Limits. 3060000000 is 102 percent of the most BCQ: the result is a plain quantity, which callers add and compare, so its bound stands in a clause.
    #[tactic(auto, unfolding(crate::specs::Amounts::percent), using(crate::proofs::Percentages::capacity_percent_le))]
    pub fn of_capacity(self, capacity: Dth) -> Quantity
        requires { capacity.0 ≤ most_bcq }
        ensures value { result ≡ percent self.hundredths capacity }
        ensures bounded { result.0 ≤ 3060000000 }
    {
        Quantity(self.hundredths * capacity.0)
    }
}

// A month, and the BCQ that its percentages are of.
#[derive(Clone, Copy, PartialEq, Eq, Debug)]
pub struct Limits {
    pub month: Month,
    pub bcq: Dth,
    ghost fits: { bcq.0 ≤ most_bcq },
}

// A range of two values together, so no InRange of one.
impl Limits {
    pub fn of(month: Month, bcq: Dth) -> Limits
        requires { bcq.0 ≤ most_bcq }
        ensures { (result.month ≡ month) × (result.bcq ≡ bcq) }
    {
        Limits { month, bcq }
    }

    pub fn checked(month: Month, bcq: Dth) -> Option<Limits>
        ensures found { IsSome result ↔ (bcq.0 ≤ most_bcq) }
        ensures same { IfSome result (λ limits. (limits.month ≡ month) × (limits.bcq ≡ bcq)) }
    {
        if bcq.0 <= MOST_BCQ {
            Some(Limits { month, bcq })
        } else {
            None
        }
    }

    pub fn percent(self, share: Percent) -> Quantity
        ensures value { result ≡ percent share.hundredths self.bcq }
        ensures bounded { result.0 ≤ 3060000000 }
    {
        share.of_capacity(self.bcq)
    }

    // The least that a bank should hold.
    pub fn minimum(self) -> Quantity
        ensures value { result ≡ percent (minimum self.month) self.bcq }
        ensures bounded { result.0 ≤ 3060000000 }
    {
        self.percent(self.month.least_bank())
    }

    pub fn maximum(self) -> Quantity
        ensures value { result ≡ percent (maximum self.month) self.bcq }
        ensures bounded { result.0 ≤ 3060000000 }
    {
        self.percent(self.month.largest_bank())
    }

    // Of a bank that takes part in a transfer or a trade. Two, as gas is passed upward or downward and the rules name both limits.
    #[tactic(auto, unfolding(crate::specs::Limits::above_maximum))]
    pub fn above_maximum(self, bank: Units) -> bool
        ensures { result ≡ above_maximum self.month self.bcq bank }
    {
        bank.above(self.maximum())
    }

    #[tactic(auto, unfolding(crate::specs::Limits::below_minimum))]
    pub fn below_minimum(self, bank: Units) -> bool
        ensures { result ≡ below_minimum self.month self.bcq bank }
    {
        bank.below(self.minimum())
    }
}
