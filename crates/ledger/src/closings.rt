// CLOSE DAY and CLOSE MONTH, of all accounts together.
ghost use Rattle.std.specs.Prelude.{◌≡◌, ◌≢◌, replicate};
ghost use Rattle.ledger.specs.Answers.{quiet};
ghost use Rattle.ledger.specs.Closings.{holidays_after, Closes, post_closing};
ghost use Rattle.ledger.specs.Kinds.{TERMS};
ghost use Rattle.ledger.specs.Posting.{admission};

use crate::admitted::Admitted;
use crate::answers::{Answer, Report};
use crate::closing::{close_account, ready};
use crate::kinds::Kind;
use crate::refusals::Refusal;
use crate::state::{Account, Ledger};
use tariff::holidays::Holidays;
use tariff::ranged::{InRange, Ranged};

// The holidays of the next day: a month's end drops those before it.
#[tactic(auto, using(std::proofs::lemmas::Bool::Decides::nat_tests), unfolding(crate::specs::Closings::holidays_after, crate::specs::Kinds::code))]
fn still_held(e: Admitted, held: Holidays) -> Holidays
    ensures { result ≡ holidays_after e.entry held }
{
    match e.kind {
        Kind::CloseMonth => held.kept_from(e.date().day_after()),
        _ => held,
    }
}

// Closes the accounts, each in its place, with its report beside it: C's structs hold the two apart. The report's place goes by index:
// iter_mut of both, zipped, was tried and the proof did not close, as std says nothing of the values behind an adapter of iter_mut.
// An account that is not open stays as it is, and has nothing to report. 27 of any account comes before 29 of any.
fn close_all(
    l: &Ledger,
    e: Admitted,
    accounts: &mut [Account; 16],
    reports: &mut [Report; 16],
) -> Result<(), Refusal>
    requires admitted { (admission l.now e.entry ≡ 0) × (e.entry.kind ≢ TERMS) }
    requires fresh { (accounts.old ≡ l.now.accounts) × (reports.old ≡ replicate 16 quiet) }
    ensures { Closes result l.now e.entry accounts.new reports.new }
{
    let date = e.date();
    let ends = date.last_of_month();
    let reads = l.holidays.measured(date);
    let terms = InRange::of(l.terms);
    let mut stays = Ok(());
    for (i, a) in accounts.iter_mut().enumerate() {
        if a.opened {
            if !ready(ends, reads, *a) {
                return Err(Refusal::Incomplete);
            }
            let one = close_account(l.is_new, terms, e, InRange::of(*a));
            if !(one.day.in_range() & one.account.in_range()) {
                stays = Err(Refusal::LeavesRange);
            }
            *a = one.account;
            reports[i] = one.report;
        }
    }
    stays
}

// What is closed is a copy of the accounts, which counts only where none refuses (docs/DECISIONS.md, 88).
#[tactic(auto, using(crate::proofs::Refused::refuses), unfolding(crate::specs::Answers::plain, crate::specs::Answers::quiet, crate::specs::Answers::refused, crate::specs::Closings::closed, crate::specs::Closings::post_closing))]
pub fn post_closing(l: &mut Ledger, e: Admitted) -> Answer
    requires { (admission l.old e.entry ≡ 0) × (e.entry.kind ≢ TERMS) }
    ensures { record { answer = result; ledger = l.new } ≡ post_closing l.old e.entry }
{
    let mut accounts = l.accounts;
    let mut answer = Answer::default();
    if let Err(refusal) = close_all(l, e, &mut accounts, &mut answer.reports) {
        return Answer::from(Err(refusal));
    }
    l.accounts = accounts;
    l.date = e.date().day_after();
    l.holidays = still_held(e, l.holidays);
    l.touched = false;
    answer
}
