// The terms in force, and the capacity that a step has under them.
ghost use Rattle.std.specs.Prelude.{◌≡◌, ◌≤◌};
ghost use Rattle.tariff.specs.Terms.{terms_in_range, mddq_of, bcq_of, capacity_of};
ghost use Rattle.tariff.specs.Bounds.{most_bcq, most_mdq};

use crate::amounts::Dth;
use crate::bounds::{MOST_DESIGN_DAY, MOST_NO_NOTICE, MOST_RATE, MOST_RETAINAGE};
use crate::ranged::{InRange, Ranged};

#[repr(C)]
#[derive(Clone, Copy, PartialEq, Eq, Default, Debug)]
pub struct Terms {
    // NN, the company's daily no-notice quantity.
    pub no_notice: Dth,
    // DD, its firm design day.
    pub design_day: Dth,
    // S, its annual no-notice storage.
    pub storage: Dth,
    // R, in ten-thousandths.
    pub retainage: u64,
    // Mills a month for each Dth of MDDQ.
    pub demand_rate: u64,
    // Mills for each Mcf used.
    pub commodity_rate: u64,
}

#[repr(C)]
#[derive(Clone, Copy, PartialEq, Eq, Default, Debug)]
pub struct Capacity {
    pub mddq: Dth,
    pub bcq: Dth,
}

impl Ranged for Terms {
    ghost ranged = { terms_in_range };

    #[tactic(auto, unfolding(crate::specs::Terms::terms_in_range))]
    fn in_range(self) -> bool {
        let nn = self.no_notice.0;
        let dd = self.design_day.0;
        let s = self.storage.0;
        // The last of them multiplies by what the first bounds.
        (1..=MOST_NO_NOTICE).contains(&nn)
            && (nn..=MOST_DESIGN_DAY).contains(&dd)
            && (nn..=100 * nn).contains(&s)
            && self.retainage <= MOST_RETAINAGE
            && self.demand_rate <= MOST_RATE
            && self.commodity_rate <= MOST_RATE
    }
}

// Dth has two ranges, of MDQ and of BCQ, and C's structs hold plain Dth: a type for each would be made anew at each of seven calls, so they stand in the clauses.
// A step is a plain number in C's struct too, so its most, 100, stands in the clauses of mddq and capacity.
impl InRange<Terms> {
    #[tactic(auto, unfolding(crate::specs::Terms::mddq_of, crate::specs::Terms::terms_in_range), using(crate::proofs::Capacities::mddq_fits))]
    fn mddq(self, k: u64) -> Dth
        requires { k ≤ 100 }
        ensures value { result ≡ mddq_of self.value k }
        ensures bounded { result.0 ≤ most_mdq }
    {
        let t = self.get();
        Dth(3000 * k * t.no_notice.0 / t.design_day.0)
    }

    #[tactic(auto, unfolding(crate::specs::Terms::bcq_of, crate::specs::Terms::terms_in_range), using(crate::proofs::Capacities::bcq_fits))]
    fn bcq(self, mddq: Dth) -> Dth
        requires { mddq.0 ≤ most_mdq }
        ensures value { result ≡ bcq_of self.value mddq }
        ensures bounded { result.0 ≤ most_bcq }
    {
        let t = self.get();
        Dth(mddq.0 * t.storage.0 / t.no_notice.0)
    }

    #[tactic(auto, unfolding(crate::specs::Terms::capacity_of))]
    pub fn capacity(self, k: u64) -> Capacity
        requires { k ≤ 100 }
        ensures value { result ≡ capacity_of self.value k }
        ensures bounded { (result.mddq.0 ≤ most_mdq) × (result.bcq.0 ≤ most_bcq) }
    {
        let mddq = self.mddq(k);
        let bcq = self.bcq(mddq);
        Capacity { mddq, bcq }
    }
}
