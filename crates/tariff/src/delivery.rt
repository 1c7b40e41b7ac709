// A day's delivery: what it adds to the bank, and the limits on a day.
ghost use Rattle.std.specs.Prelude.{◌≡◌, ◌≤◌, ◌↔◌, IsSome, IfSome, not};
ghost use Rattle.tariff.specs.Amounts.{size, below, percent};
ghost use Rattle.tariff.specs.Delivery.{retained, days_of_injection, breaks_v1, share_of, breaks_v2};
ghost use Rattle.tariff.specs.Bounds.{most_mdq, most_retainage, most_units};

use crate::amounts::{Dth, Quantity, Units};
use crate::bounds::{MOST_RETAINAGE, MOST_UNITS};
use crate::limits::{Limits, Percent};
use crate::months::Month;

// A day's delivery and its back-cast, each in its range, before retainage of so many ten-thousandths.
#[derive(Clone, Copy, PartialEq, Eq, Debug)]
pub struct Delivery {
    pub retainage: u64,
    pub delivered: Quantity,
    pub back_cast: Quantity,
    ghost fits: { (retainage ≤ most_retainage) × (delivered.0 ≤ most_units) × (back_cast.0 ≤ most_units) },
}

// A range of three values together, so no InRange of one.
impl Delivery {
    pub fn of(retainage: u64, delivered: Quantity, back_cast: Quantity) -> Delivery
        requires { (retainage ≤ most_retainage) × (delivered.0 ≤ most_units) × (back_cast.0 ≤ most_units) }
        ensures { (result.retainage ≡ retainage) × (result.delivered ≡ delivered) × (result.back_cast ≡ back_cast) }
    {
        Delivery {
            retainage,
            delivered,
            back_cast,
        }
    }

    pub fn checked(retainage: u64, delivered: Quantity, back_cast: Quantity) -> Option<Delivery>
        ensures found { IsSome result ↔ ((retainage ≤ most_retainage) × (delivered.0 ≤ most_units) × (back_cast.0 ≤ most_units)) }
        ensures same { IfSome result (λ d. (d.retainage ≡ retainage) × (d.delivered ≡ delivered) × (d.back_cast ≡ back_cast)) }
    {
        if (retainage <= MOST_RETAINAGE)
            & (delivered.0 <= MOST_UNITS)
            & (back_cast.0 <= MOST_UNITS)
        {
            Some(Delivery {
                retainage,
                delivered,
                back_cast,
            })
        } else {
            None
        }
    }

    // What retainage leaves of delivered less back-cast, rounded toward zero.
    #[tactic(auto, using(crate::proofs::Signed::sums))]
    pub fn retained(self) -> Units
        ensures value { result ≡ retained self.retainage self.delivered self.back_cast }
        ensures bounded { size result ≤ most_units }
    {
        let keep = (10000 - self.retainage).cast_signed();
        let difference = self.delivered.0.cast_signed() - self.back_cast.0.cast_signed();
        Units(difference * keep / 10000)
    }
}

// The days into which a month's limit on injections is divided.
#[tactic(auto, unfolding(crate::specs::Delivery::days_of_injection, crate::specs::Months::same_month, crate::specs::Months::november, crate::specs::Months::december))]
fn days_of_injection(m: Month) -> u64
    ensures value { result ≡ days_of_injection m }
    ensures bounded { result ≤ 30 }
{
    if m == Month::NOVEMBER || m == Month::DECEMBER {
        30
    } else {
        25
    }
}

// An amount's bound is what `retained` promises. Units has several ranges (closing.rt), so it stands in the clauses of the three that ask for it,
// one of them the ledger's.
impl Limits {
    #[tactic(auto, unfolding(crate::specs::Delivery::breaks_v1))]
    pub fn breaks_v1(self, amount: Units) -> bool
        requires { size amount ≤ most_units }
        ensures { result ≡ breaks_v1 self.month self.bcq amount }
    {
        let most = self.percent(self.month.most_added());
        let injected = amount.inward();
        most.0 < days_of_injection(self.month) * injected.0
    }

    fn holds(self, bank: Units, share: Percent) -> bool
        ensures { result ≡ not (below bank (percent share.hundredths self.bcq)) }
    {
        !bank.below(self.percent(share))
    }

    // The share of the MDDQ that may be withdrawn in a day.
    #[tactic(auto, unfolding(crate::specs::Delivery::share_of))]
    pub fn open_share(self, bank: Units, back_cast: Quantity, mdq: Dth) -> Percent
        requires { mdq.0 ≤ most_mdq }
        ensures value { result.hundredths ≡ share_of bank self.bcq back_cast mdq }
        ensures bounded { result.hundredths ≤ 100 }
    {
        let cold = 100 * mdq.0 <= back_cast.0;
        let share = if cold || self.holds(bank, Percent::of(30)) {
            100
        } else if self.holds(bank, Percent::of(20)) {
            80
        } else if self.holds(bank, Percent::of(10)) {
            65
        } else {
            50
        };
        Percent::of(share)
    }
}

impl Percent {
    // Of a day's withdrawal and the share of the MDDQ that is open.
    #[tactic(auto, unfolding(crate::specs::Delivery::breaks_v2))]
    pub fn breaks_v2(self, mddq: Dth, amount: Units) -> bool
        requires { (mddq.0 ≤ most_mdq) × (size amount ≤ most_units) }
        ensures { result ≡ breaks_v2 self.hundredths mddq amount }
    {
        self.of_capacity(mddq) < amount.outward()
    }
}
