// Which rules a posting meets, by its kind.
ghost use Rattle.std.specs.Prelude.{◌≡◌};
ghost use Rattle.ledger.specs.Answers.{refused};
ghost use Rattle.ledger.specs.Kinds.{code, kind_of};
ghost use Rattle.ledger.specs.Posting.{admission, post_kind, stored, change_of};
ghost use Rattle.ledger.specs.Refusals.{Makes, number_of};
ghost use Rattle.ledger.specs.State.{account_at};

use crate::admitted::Admitted;
use crate::answers::Answer;
use crate::closings::post_closing;
use crate::confiscated::confiscation;
use crate::deliver::delivery;
use crate::enrol::enrolment;
use crate::holiday::post_holiday;
use crate::kinds::Kind;
use crate::measure::measurement;
use crate::notice::post_notice;
use crate::refusals::Refusal;
use crate::state::{Account, Ledger};
use crate::terms::post_terms;
use crate::trade::trade;
use crate::transfer::post_transfer;
use crate::usage::usage;
use tariff::ranged::InRange;
use tariff::terms::Terms;

// That `admission` is 0 is a fact of ledger and entry together, so it stands in the contracts of all that take both. Tried: a struct
// of the two with this as its ghost field. By value, the borrow checker covers none that is written through or moved in a branch;
// lent, the fact would have to hold of the changed ledger too.

// Most kinds see the account alone that they name, and change nothing else.
#[tactic(auto, using(crate::proofs::Refused::refuses), unfolding(crate::specs::Posting::stored, crate::specs::Answers::refused, crate::specs::Answers::settle, crate::specs::State::account_at, crate::specs::State::nobody, crate::specs::State::no_month, crate::specs::State::no_today, crate::specs::State::no_totals, crate::specs::State::with_account))]
fn post_one(l: &mut Ledger, e: Admitted) -> Result<(), Refusal>
    requires { (admission l.old e.entry ≡ 0) × ((kind_of (code e.kind)).accounts ≡ 1) }
    ensures { refused l.new (number_of result) ≡ stored l.old e.entry.a (change_of l.old.terms (account_at l.old e.entry.a) e.entry) }
{
    let i = e.entry.a;
    let terms = InRange::of(l.terms);
    let a = InRange::of(l.accounts[i]);
    l.accounts[i] = change(terms, a, e)?;
    l.touched = true;
    Ok(())
}

#[tactic(auto, unfolding(crate::specs::Posting::post_kind, crate::specs::Posting::post_several, crate::specs::Answers::refused, crate::specs::Kinds::code, crate::specs::Kinds::kind_of, crate::specs::Kinds::lookup))]
pub fn post_admitted(l: &mut Ledger, e: Admitted) -> Answer
    requires { admission l.old e.entry ≡ 0 }
    ensures { record { answer = result; ledger = l.new } ≡ post_kind l.old e.entry }
{
    let outcome = match e.kind {
        Kind::Terms => post_terms(l, e),
        Kind::Transfer => post_transfer(l, e),
        Kind::CloseDay | Kind::CloseMonth => return post_closing(l, e),
        Kind::Holiday => post_holiday(l, e.entry),
        Kind::Notice => post_notice(l, e),
        Kind::Enrol
        | Kind::Deliver
        | Kind::Trade
        | Kind::Measure
        | Kind::Usage
        | Kind::Confiscated => post_one(l, e),
    };
    Answer::from(outcome)
}

// Terms, account and entry go on together to enrolment and delivery: a struct of the three would be made here and taken apart in each.
// The kinds that name one account, by that account.
#[tactic(auto, unfolding(crate::specs::Posting::change_of, crate::specs::Kinds::code, crate::specs::Kinds::lookup, crate::specs::Refusals::number))]
fn change(t: InRange<Terms>, a: InRange<Account>, e: Admitted) -> Result<Account, Refusal>
    ensures { Makes result (change_of t.value a.value e.entry) }
{
    match e.kind {
        Kind::Enrol => enrolment(t, a.get(), e),
        Kind::Deliver => delivery(t, a, e),
        Kind::Trade => trade(a, e),
        Kind::Measure => measurement(a, e),
        Kind::Usage => usage(a.get(), e.entry),
        Kind::Confiscated => confiscation(a.get(), e.entry),
        // These name none or two, and do not come here; the definition has 2 for them too.
        Kind::Terms
        | Kind::Transfer
        | Kind::CloseDay
        | Kind::CloseMonth
        | Kind::Holiday
        | Kind::Notice => Err(Refusal::NoSuchKind),
    }
}
