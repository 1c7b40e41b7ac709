// The ranges of the numbers in a ledger, whoever hands it in.
ghost use Rattle.std.specs.Prelude.{◌≡◌};
ghost use Rattle.ledger.specs.Ranges.{totals_in_range, step_in_range, notice_in_range, account_in_range, in_range};

use crate::forms::some_units;
use crate::state::{Account, Ledger, Notice};
use tariff::bill::Totals;
use tariff::bounds::{
    MOST_BANK, MOST_BCQ, MOST_DAYS, MOST_MCF, MOST_MDQ, MOST_OVERDRAFT, MOST_OWED, MOST_UNITS,
};
use tariff::ranged::Ranged;
use tariff::steps::Step;

// These two are of the tariff's types, so they cannot be its trait here.
#[tactic(auto, unfolding(crate::specs::Ranges::totals_in_range))]
fn totals_in_range(m: Totals) -> bool
    ensures { result ≡ totals_in_range m }
{
    m.net.within(MOST_BANK, MOST_BANK)
        & (m.sales.0 <= MOST_BANK)
        & (m.purchases.0 <= MOST_BANK)
        & (m.cash_ins.0 <= MOST_BANK)
        & (m.cash_outs.0 <= MOST_BANK)
        & (m.usage.0 <= MOST_MCF)
}

#[tactic(auto, unfolding(crate::specs::Ranges::step_in_range))]
fn step_in_range(opened: bool, s: Step) -> bool
    ensures { result ≡ step_in_range opened s }
{
    let k = (1 <= s.k) & (s.k <= 100);
    let pending = (1 <= s.pending) & (s.pending <= 100);
    (!opened | (k & pending)) & ((s.over <= 2) & (s.under <= 2))
}

impl Ranged for Notice {
    ghost ranged = { notice_in_range };

    #[tactic(auto, unfolding(crate::specs::Ranges::notice_in_range))]
    fn in_range(self) -> bool {
        !self.stands | ((self.other < 16) & some_units(self.units.0))
    }
}

impl Ranged for Account {
    ghost ranged = { account_in_range };

    #[tactic(auto, unfolding(crate::specs::Ranges::account_in_range))]
    fn in_range(self) -> bool {
        self.bank.within(MOST_OVERDRAFT, MOST_BANK)
            & totals_in_range(self.month.totals)
            & step_in_range(self.opened, self.step)
            & ((self.mdq.0 <= MOST_MDQ)
                & (self.capacity.mddq.0 <= MOST_MDQ)
                & (self.capacity.bcq.0 <= MOST_BCQ))
            & (self.carry.0 <= MOST_BANK)
            & self.owed.within(MOST_OWED)
            & (self.violation_days <= MOST_DAYS)
            & (self.today.confiscation.0 <= MOST_UNITS)
            & self.today.notice.in_range()
    }
}

impl Ledger {
    // By reference, and so not the trait's: a ledger handed on by value is copied.
    pub fn in_range(&self) -> bool
        ensures { result ≡ in_range self.now }
    {
        let dated = !self.begun | (self.date.in_range() & self.terms.in_range());
        dated & self.holidays.in_range() & self.accounts.iter().all(|a| a.in_range())
    }
}
