// The step of an account's MDQ, in factors of 3,000 Dth a day.
ghost use Rattle.std.specs.Prelude.{◌≡◌, ◌≤◌};
ghost use Rattle.tariff.specs.Steps.{step_of, first_step, is_over, is_under, crosses, measured, settled_step, falls};
ghost use Rattle.tariff.specs.Bounds.{most_mdq};

use crate::amounts::Dth;

#[repr(C)]
#[derive(Clone, Copy, PartialEq, Eq, Default, Debug)]
pub struct Step {
    pub k: u64,
    // Becomes k at the month's end.
    pub pending: u64,
    // How often running the measured MDQ was above the step, and below it.
    pub over: u64,
    pub under: u64,
}

// MDQ / 3,000, rounded up.
#[tactic(auto, unfolding(crate::specs::Steps::step_of))]
fn step_of(mdq: Dth) -> u64
    ensures { result ≡ step_of mdq }
{
    mdq.0.div_ceil(3000)
}

impl Step {
    #[tactic(auto, unfolding(crate::specs::Steps::first_step, crate::specs::Steps::step_of))]
    pub fn first(mdq: Dth) -> Step
        requires { mdq.0 ≤ most_mdq }
        ensures value { result ≡ first_step mdq }
        ensures bounded { (result.k ≤ 100) × (result.pending ≤ 100) }
    {
        let k = step_of(mdq);
        Step {
            k,
            pending: k,
            ..Step::default()
        }
    }

    // The four tests compare steps and not 3,000 × k, so that no k of a ledger handed in can overflow them.
    #[tactic(auto, unfolding(crate::specs::Steps::is_over, crate::specs::Steps::step_of))]
    fn is_over(self, m: Dth) -> bool
        ensures { result ≡ is_over self m }
    {
        self.k < step_of(m)
    }

    #[tactic(auto, unfolding(crate::specs::Steps::is_under))]
    fn is_under(self, m: Dth) -> bool
        ensures { result ≡ is_under self m }
    {
        m.0 / 3000 + 1 < self.k
    }

    #[tactic(auto, unfolding(crate::specs::Steps::crosses))]
    fn crosses(self, m: Dth) -> bool
        ensures { result ≡ crosses self m }
    {
        let far_over = 500 <= m.0 && self.k <= (m.0 - 500) / 3000;
        let third_over = self.is_over(m) & (2 <= self.over);
        let edge = if m.0 % 3000 <= 2500 { 1 } else { 2 };
        let far_under = m.0 / 3000 + edge < self.k;
        let third_under = self.is_under(m) & (2 <= self.under);
        far_over | third_over | far_under | third_under
    }

    // What a measured MDQ makes of the step.
    #[tactic(auto, unfolding(crate::specs::Steps::measured))]
    pub fn measured(self, m: Dth) -> Step
        requires { (self.over ≤ 2) × (self.under ≤ 2) }
        ensures { result ≡ measured self m }
    {
        if self.crosses(m) {
            return Step {
                pending: step_of(m).max(1),
                over: 0,
                under: 0,
                ..self
            };
        }
        let over = if self.is_over(m) { self.over + 1 } else { 0 };
        let under = if self.is_under(m) { self.under + 1 } else { 0 };
        Step {
            pending: self.k,
            over,
            under,
            ..self
        }
    }

    // The month's end.
    #[tactic(auto, unfolding(crate::specs::Steps::settled_step))]
    pub fn settled(self) -> Step
        ensures { result ≡ settled_step self }
    {
        Step {
            k: self.pending,
            ..self
        }
    }

    #[tactic(auto, unfolding(crate::specs::Steps::falls))]
    pub fn falls(self) -> bool
        ensures { result ≡ falls self }
    {
        self.pending < self.k
    }
}
