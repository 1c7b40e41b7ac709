// What a closing finds and does: violations, cash, carry, forfeit.
ghost use Rattle.std.specs.Prelude.{◌≡◌, ◌+◌, ◌≤◌};
ghost use Rattle.tariff.specs.Amounts.{size};
ghost use Rattle.tariff.specs.Closing.{breaks_v3, withdrawal_limit, breaks_v4, breaks_v5, breaks_v6, breaks_v7, breaks_v8, cash_of, ends_excuse, carry_of, excess_over, forfeit_of, forfeit_under, mask_of};
ghost use Rattle.tariff.specs.Bounds.{most_bank};

use crate::amounts::{Quantity, Units};
use crate::dates::Date;
use crate::limits::{Limits, Percent};
use crate::months::Month;
use crate::ranged::InRange;

impl Limits {
    #[tactic(auto, unfolding(crate::specs::Closing::breaks_v3))]
    pub fn breaks_v3(self, net: Units) -> bool
        ensures { result ≡ breaks_v3 self.month self.bcq net }
    {
        net.above(self.percent(self.month.most_added()))
    }

    // The most that a winter month may still withdraw, after what the months before it took too much.
    #[tactic(auto, unfolding(crate::specs::Closing::withdrawal_limit))]
    pub fn withdrawal_limit(self, carry: Quantity) -> Quantity
        ensures value { result ≡ withdrawal_limit self.month self.bcq carry }
        ensures bounded { result.0 ≤ 3060000000 }
    {
        let most = self.percent(self.month.most_withdrawn());
        Quantity(most.0.saturating_sub(carry.0))
    }

    #[tactic(auto, unfolding(crate::specs::Closing::breaks_v5, crate::specs::Months::same_month, crate::specs::Months::february, crate::specs::Months::march))]
    pub fn breaks_v5(self, d: InRange<Date>, net: Units) -> bool
        requires { size net ≤ most_bank }
        ensures { result ≡ breaks_v5 d.value self.bcq net }
    {
        let m = d.get().month;
        let asked = d.last_of_month() & ((m == Month::FEBRUARY) | (m == Month::MARCH));
        asked & (-net).below(self.percent(m.least_withdrawn()))
    }

    #[tactic(auto, unfolding(crate::specs::Closing::breaks_v6, crate::specs::Months::june, crate::specs::Months::august))]
    pub fn breaks_v6(self, d: Date, bank: Units) -> bool
        ensures { result ≡ breaks_v6 d self.bcq bank }
    {
        let in_june = d.is_on(Month::JUNE, 30) & bank.above(self.percent(Percent::of(60)));
        let in_august = d.is_on(Month::AUGUST, 31) & bank.above(self.percent(Percent::of(85)));
        in_june | in_august
    }

    #[tactic(auto, unfolding(crate::specs::Closing::breaks_v8))]
    pub fn breaks_v8(self, excused: bool, bank: Units) -> bool
        ensures { result ≡ breaks_v8 excused self.bcq bank }
    {
        !excused & bank.above(self.percent(Percent::of(102)))
    }

    // Up to the month's minimum for a bank below zero, down to its maximum for one too high.
    #[tactic(auto, unfolding(crate::specs::Closing::cash_of, crate::specs::Amounts::nothing, crate::specs::Amounts::size))]
    pub fn cash(self, excused: bool, bank: Units) -> Units
        requires { size bank ≤ most_bank }
        ensures value { result ≡ cash_of self.month excused self.bcq bank }
        ensures bounded { size result ≤ size bank + 3060000000 }
    {
        if breaks_v7(bank) {
            self.minimum() - bank
        } else if self.breaks_v8(excused, bank) {
            self.maximum() - bank
        } else {
            Units::default()
        }
    }

    #[tactic(auto, unfolding(crate::specs::Closing::ends_excuse))]
    pub fn ends_excuse(self, bank: Units) -> bool
        ensures { result ≡ ends_excuse self.month self.bcq bank }
    {
        !bank.above(self.maximum())
    }

    // What a bank has above the share that it may keep past January or March.
    #[tactic(auto, unfolding(crate::specs::Closing::forfeit_of, crate::specs::Months::same_month, crate::specs::Months::january, crate::specs::Months::march), using(crate::proofs::Results::forfeit_le))]
    pub fn forfeit(self, bank: Units) -> Quantity
        requires { size bank ≤ 300000000000 }
        ensures value { result ≡ forfeit_of self.month self.bcq bank }
        ensures bounded { result.0 ≤ size bank }
    {
        if self.month == Month::JANUARY {
            excess(bank, self.percent(Percent::of(65)))
        } else if self.month == Month::MARCH {
            excess(bank, self.percent(Percent::of(25)))
        } else {
            Quantity(0)
        }
    }
}

// Units and Quantity have several ranges (a delivery's, a bank's, three times a bank's), so neither is Ranged by one: each stands in the clauses.
#[tactic(auto, unfolding(crate::specs::Closing::breaks_v4))]
pub fn breaks_v4(m: Month, limit: Quantity, net: Units) -> bool
    requires { (limit.0 ≤ most_bank) × (size net ≤ most_bank) }
    ensures { result ≡ breaks_v4 m limit net }
{
    m.winter() & (-net).above(limit)
}

#[tactic(auto, unfolding(crate::specs::Closing::breaks_v7))]
pub fn breaks_v7(bank: Units) -> bool
    ensures { result ≡ breaks_v7 bank }
{
    bank.below(Quantity(0))
}

// max(0, a − q).
#[tactic(auto, unfolding(crate::specs::Closing::excess_over), using(crate::proofs::Sizes::excess_le))]
fn excess(a: Units, q: Quantity) -> Quantity
    requires { (size a ≤ 300000000000) × (q.0 ≤ most_bank) }
    ensures value { result ≡ excess_over a q }
    ensures bounded { result.0 ≤ size a }
{
    (a - q).inward()
}

// Withdrawn beyond the limit, which the next month's limit is less by; March carries nothing into April.
#[tactic(auto, unfolding(crate::specs::Closing::carry_of, crate::specs::Months::same_month, crate::specs::Months::march), using(crate::proofs::Results::carry_le))]
pub fn carry(m: Month, limit: Quantity, net: Units) -> Quantity
    requires { (limit.0 ≤ most_bank) × (size net ≤ most_bank) }
    ensures value { result ≡ carry_of m limit net }
    ensures bounded { result.0 ≤ size net }
{
    if m.winter() && m != Month::MARCH {
        excess(-net, limit)
    } else {
        Quantity(0)
    }
}

// How much of it is taken: all under the first rule, under the new one no more than the storage provider confiscated.
// A bool, as C has it; an enum of two would be made of it and turned back at each call.
#[tactic(auto, unfolding(crate::specs::Closing::forfeit_under))]
pub fn forfeit_under(is_new: bool, confiscated: Quantity, excess: Quantity) -> Quantity
    ensures value { result ≡ forfeit_under is_new confiscated excess }
    ensures bounded { result.0 ≤ excess.0 }
{
    if is_new {
        confiscated.min(excess)
    } else {
        excess
    }
}

// What an account broke on a day.
#[derive(Clone, Copy, PartialEq, Eq, Default, Debug)]
pub struct Violations {
    pub v1: bool,
    pub v2: bool,
    pub v3: bool,
    pub v4: bool,
    pub v5: bool,
    pub v6: bool,
    pub v7: bool,
    pub v8: bool,
}

impl Violations {
    // One bit for each, V1 the lowest.
    #[tactic(auto, unfolding(crate::specs::Closing::mask_of), using(crate::proofs::Bools::bit_le, crate::proofs::Bools::weighed))]
    pub fn mask(self) -> u64
        ensures value { result ≡ mask_of self.v1 self.v2 self.v3 self.v4 self.v5 self.v6 self.v7 self.v8 }
        ensures bounded { result ≤ 255 }
    {
        u64::from(self.v1)
            + 2 * u64::from(self.v2)
            + 4 * u64::from(self.v3)
            + 8 * u64::from(self.v4)
            + 16 * u64::from(self.v5)
            + 32 * u64::from(self.v6)
            + 64 * u64::from(self.v7)
            + 128 * u64::from(self.v8)
    }
}
