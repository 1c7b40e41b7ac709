// One account at CLOSE DAY and CLOSE MONTH.
ghost use Rattle.std.specs.Prelude.{◌≡◌, true, cond, ◌+◌, ◌≤◌, eqb};
ghost use Rattle.tariff.specs.Amounts.{size, size_mills};
ghost use Rattle.tariff.specs.Steps.{settled_step};
ghost use Rattle.ledger.specs.Closing.{limit_of, violations_of, cash_at, with_cash, excused_still, day_end, month_end, next_capacity, day_closing, month_closing, left_alone, closing_of, ready};
ghost use Rattle.tariff.specs.Bounds.{most_bank, most_bcq, most_days, most_mcf, most_mdq, most_owed};

use crate::admitted::Admitted;
use crate::answers::Report;
use crate::kinds::Kind;
use crate::state::{Account, ThisMonth, Today};
use tariff::amounts::{Mills, Quantity, Units};
use tariff::bill::{Prices, Totals};
use tariff::closing::{Violations, breaks_v4, breaks_v7, carry, forfeit_under};
use tariff::dates::Date;
use tariff::limits::Limits;
use tariff::ranged::InRange;
use tariff::terms::Terms;

// An account at a closing: after the day's part, at the end, and what is reported of it.
#[derive(Clone, Copy, PartialEq, Eq, Debug)]
pub struct Closed {
    pub day: Account,
    pub account: Account,
    pub report: Report,
}

// An account after the day's part, with what the month's part may count on: it was in range, and the cash is added. No two are compared.
#[derive(Clone, Copy)]
struct AfterDay {
    account: Account,
    ghost bank: { size account.bank ≤ 300000000000 },
    ghost net: { size account.month.totals.net ≤ most_bank },
    ghost traded: { (account.month.totals.sales.0 ≤ 300000000000) × (account.month.totals.purchases.0 ≤ 300000000000) },
    ghost cashed: { (account.month.totals.cash_ins.0 ≤ 300000000000) × (account.month.totals.cash_outs.0 ≤ 300000000000) },
    ghost used: { account.month.totals.usage.0 ≤ most_mcf },
    ghost capacity: { (account.capacity.mddq.0 ≤ most_mdq) × (account.capacity.bcq.0 ≤ most_bcq) },
    ghost owed: { size_mills account.owed ≤ most_owed },
    ghost step: { account.step.pending ≤ 100 },
}

// An open account on the day that closes it.
#[derive(Clone, Copy)]
struct Closing {
    date: InRange<Date>,
    account: InRange<Account>,
    ghost open: { account.value.opened ≡ true },
}

#[tactic(auto, using(tariff::proofs::Laws::together_value), unfolding(crate::specs::Closing::with_cash))]
fn with_cash(m: Totals, cash: Units) -> Totals
    requires { (m.cash_ins.0 ≤ most_bank) × (m.cash_outs.0 ≤ most_bank) × (size cash ≤ 103060000000) }
    ensures value { result ≡ with_cash m cash }
    ensures bounded { (result.cash_ins.0 ≤ 300000000000) × (result.cash_outs.0 ≤ 300000000000) }
{
    Totals {
        cash_ins: m.cash_ins + cash.inward(),
        cash_outs: m.cash_outs + cash.outward(),
        ..m
    }
}

// One more violation day where anything was broken.
fn days(so_far: u64, mask: u64) -> u64
    requires { so_far ≤ most_days }
    ensures { result ≡ so_far + cond (eqb mask 0) 0 1 }
{
    so_far + u64::from(mask != 0)
}

// In a new month, with the step that the month leaves and the capacity that goes with it.
// Forfeit and bill come from the tariff with these bounds, and are C's plain amounts: a type for them would be made and read once.
#[tactic(auto, using(tariff::proofs::Laws::settled_k), unfolding(crate::specs::Closing::month_end, crate::specs::Closing::limit_of, crate::specs::Closing::next_capacity, crate::specs::State::with_bank, crate::specs::State::with_measure, crate::specs::State::with_capacity, crate::specs::State::with_month, crate::specs::State::with_carry, crate::specs::State::with_excuse, crate::specs::State::no_month, crate::specs::State::no_totals))]
fn month_end(d: Date, t: InRange<Terms>, forfeit: Quantity, bill: Mills, day: AfterDay) -> Account
    requires { (forfeit.0 ≤ 300000000000) × (size_mills bill ≤ 2000000000000000) }
    ensures { result ≡ month_end d (limit_of d day.account) (settled_step day.account.step) (next_capacity t.value day.account) forfeit bill day.account }
{
    let a = day.account;
    let limit = Limits::of(d.month, a.capacity.bcq).withdrawal_limit(a.carry);
    let step = a.step.settled();
    Account {
        bank: a.bank - forfeit,
        step,
        capacity: t.capacity(step.k),
        month: ThisMonth::default(),
        carry: carry(d.month, limit, a.month.totals.net),
        owed: a.owed + bill,
        excused: a.excused | a.step.falls(),
        ..a
    }
}

impl Closing {
    #[tactic(auto, using(crate::proofs::Bounded::bounds), unfolding(crate::specs::Closing::violations_of, crate::specs::Closing::limit_of))]
    fn violations(self) -> u64
        ensures { result ≡ violations_of self.date.value self.account.value }
    {
        let date = self.date.get();
        let a = self.account.get();
        let limits = Limits::of(date.month, a.capacity.bcq);
        let limit = limits.withdrawal_limit(a.carry);
        let net = a.month.totals.net;
        let found = Violations {
            v1: a.today.v1,
            v2: a.today.v2,
            v3: limits.breaks_v3(net),
            v4: breaks_v4(date.month, limit, net),
            v5: limits.breaks_v5(self.date, net),
            v6: limits.breaks_v6(date, a.bank),
            v7: breaks_v7(a.bank),
            v8: limits.breaks_v8(a.excused, a.bank),
        };
        found.mask()
    }

    // The bound goes on to day_end and with_cash alone: a type for it would be made here and read once in each.
    #[tactic(auto, using(crate::proofs::Bounded::bounds), unfolding(crate::specs::Closing::cash_at))]
    fn cash_at(self) -> Units
        ensures value { result ≡ cash_at self.date.value self.account.value }
        ensures bounded { size result ≤ 103060000000 }
    {
        let a = self.account.get();
        Limits::of(self.date.get().month, a.capacity.bcq).cash(a.excused, a.bank)
    }

    // Whether the excuse goes on, with the bank after cash.
    #[tactic(auto, using(crate::proofs::Bounded::bounds), unfolding(crate::specs::Closing::excused_still))]
    fn excused_still(self, bank: Units) -> bool
        ensures { result ≡ excused_still self.date.value self.account.value bank }
    {
        let a = self.account.get();
        a.excused & !Limits::of(self.date.get().month, a.capacity.bcq).ends_excuse(bank)
    }

    #[tactic(auto, using(crate::proofs::Bounded::bounds, crate::proofs::Bounded::pending_fits), unfolding(crate::specs::Closing::day_end, crate::specs::Closing::with_cash, crate::specs::State::with_bank, crate::specs::State::with_totals, crate::specs::State::with_month, crate::specs::State::with_excuse, crate::specs::State::with_days, crate::specs::State::with_today, crate::specs::State::no_today))]
    fn day_end(self, mask: u64, cash: Units) -> AfterDay
        requires { size cash ≤ 103060000000 }
        ensures { result.account ≡ day_end self.date.value mask cash self.account.value }
    {
        let a = self.account.get();
        let bank = a.bank + cash;
        let totals = with_cash(a.month.totals, cash);
        let excused = self.excused_still(bank);
        AfterDay {
            account: Account {
                bank,
                month: ThisMonth { totals, ..a.month },
                excused,
                violation_days: days(a.violation_days, mask),
                today: Today::default(),
                ..a
            },
        }
    }

    #[tactic(auto, unfolding(crate::specs::Closing::day_closing, crate::specs::Closing::after_day))]
    fn close_day(self) -> Closed
        ensures { result ≡ day_closing self.date.value self.account.value }
    {
        let mask = self.violations();
        let cash = self.cash_at();
        let day = self.day_end(mask, cash).account;
        Closed {
            day,
            account: day,
            report: Report {
                mask,
                cash,
                forfeit: Quantity(0),
                bill: Mills(0),
            },
        }
    }

    #[tactic(auto, using(tariff::proofs::Laws::settled_k), unfolding(crate::specs::Closing::month_closing, crate::specs::Closing::after_month, crate::specs::Closing::after_day, crate::specs::Closing::bill_at, crate::specs::Closing::excess_at, crate::specs::Closing::forfeit_at, crate::specs::Closing::next_capacity))]
    fn close_month(self, is_new: bool, t: InRange<Terms>, p: InRange<Prices>) -> Closed
        ensures { result ≡ month_closing is_new self.date.value t.value p.value self.account.value }
    {
        let date = self.date.get();
        let mask = self.violations();
        let cash = self.cash_at();
        let after = self.day_end(mask, cash);
        let day = after.account;
        let bill = day.month.totals.bill(t, p, day.capacity.mddq);
        let next = t.capacity(day.step.settled().k);
        let excess = Limits::of(date.month, next.bcq).forfeit(day.bank);
        // What was confiscated is told by the account as it came: the day's part has cleared it.
        let forfeit = forfeit_under(is_new, self.account.get().today.confiscation, excess);
        Closed {
            day,
            account: month_end(date, t, forfeit, bill, after),
            report: Report {
                mask,
                cash,
                forfeit,
                bill,
            },
        }
    }
}

// What no closing touches: it stays as it is, and nothing is reported of it.
#[tactic(auto, unfolding(crate::specs::Closing::left_alone, crate::specs::Answers::quiet))]
fn left_alone(a: Account) -> Closed
    ensures { result ≡ left_alone a }
{
    Closed {
        day: a,
        account: a,
        report: Report::default(),
    }
}

#[tactic(auto, unfolding(crate::specs::Closing::closing_of, crate::specs::Kinds::code, crate::specs::Kinds::lookup))]
pub fn close_account(is_new: bool, t: InRange<Terms>, e: Admitted, a: InRange<Account>) -> Closed
    requires { a.value.opened ≡ true }
    ensures { result ≡ closing_of is_new t.value e.entry a.value }
{
    let closing = Closing {
        date: e.date(),
        account: a,
    };
    match e.kind {
        Kind::CloseDay => closing.close_day(),
        Kind::CloseMonth => closing.close_month(is_new, t, e.prices()),
        // No other kind closes.
        _ => left_alone(a.get()),
    }
}

// Whether an account has all that its closing asks for, on a day that ends a month or not and reads the meters or not.
#[tactic(auto, unfolding(crate::specs::Closing::ready))]
pub fn ready(ends: bool, reads: bool, a: Account) -> bool
    ensures { result ≡ ready ends reads a }
{
    let measured = !reads | a.month.measured;
    let metered = !ends | a.month.metered;
    !a.opened | (a.today.delivered & measured & metered)
}
