// The month's limits on both sides, asked before any gas moves.
ghost use Rattle.std.specs.Prelude.{◌≡◌, ◌≤◌, ◌<◌, not};
ghost use Rattle.tariff.specs.Amounts.{gap, less, more, percent, size};
ghost use Rattle.tariff.specs.Bounds.{most_bank, most_units};
ghost use Rattle.tariff.specs.Limits.{above_maximum, below_minimum};
ghost use Rattle.tariff.specs.Months.{maximum};

use ledger::Account;
use tariff::amounts::{Quantity, Units};
use tariff::limits::Limits;
use tariff::months::Month;
use tariff::ranged::InRange;

// Gas that a seller would give: one of the accounts, and no more than can change hands at once. No two are compared or printed.
#[derive(Clone, Copy)]
pub struct Offer {
    pub seller: usize,
    pub quantity: Quantity,
    ghost there: { seller < 16 },
    ghost fits: { quantity.0 ≤ most_units },
}

// A bank in its range, and the month's limits on it. No two are compared or printed.
#[derive(Clone, Copy)]
pub struct Holder {
    pub bank: Units,
    pub limits: Limits,
    ghost in_range: { size bank ≤ most_bank },
}

impl Holder {
    #[tactic(auto, using(ledger::proofs::Bounded::bounds))]
    pub fn of(month: Month, account: InRange<Account>) -> Holder
        ensures bank { result.bank ≡ account.value.bank }
        ensures limits { (result.limits.month ≡ month) × (result.limits.bcq ≡ account.value.capacity.bcq) }
    {
        let a = account.get();
        Holder {
            bank: a.bank,
            limits: Limits::of(month, a.capacity.bcq),
        }
    }

    // Two functions: each side has its own limit and its own sign, and one of a side would have to ask for both. The ledger's Side is its own, and is
    // of an account that changes; no account does here.
    // Each asks the quantity's bound, which an Offer carries: an Offer has a seller too, of whom neither side is asked.
    pub fn takes(self, quantity: Quantity) -> bool
        requires { quantity.0 ≤ most_units }
        ensures { result ≡ not (above_maximum self.limits.month self.limits.bcq (more self.bank quantity)) }
    {
        !self.limits.above_maximum(self.bank + quantity)
    }

    pub fn spares(self, quantity: Quantity) -> bool
        requires { quantity.0 ≤ most_units }
        ensures { result ≡ not (below_minimum self.limits.month self.limits.bcq (less self.bank quantity)) }
    {
        !self.limits.below_minimum(self.bank - quantity)
    }

    // What the bank has left to the month's maximum.
    pub fn headroom(self) -> Units
        ensures { result ≡ gap self.bank (percent (maximum self.limits.month) self.limits.bcq) }
    {
        self.limits.maximum() - self.bank
    }
}
