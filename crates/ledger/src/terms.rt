// TERMS.
ghost use Rattle.std.specs.Prelude.{◌≡◌};
ghost use Rattle.ledger.specs.Answers.{refused};
ghost use Rattle.ledger.specs.Posting.{admission};
ghost use Rattle.ledger.specs.Refusals.{number_of};
ghost use Rattle.ledger.specs.Terms.{reworked, terms_next, post_terms};
ghost use Rattle.ledger.specs.declared.kinds.Kind.TheVariants.{Terms as TERMS};

use crate::admitted::Admitted;
use crate::refusals::Refusal;
use crate::state::{Account, Ledger};
use tariff::ranged::InRange;
use tariff::terms::Terms;

#[tactic(auto, using(crate::proofs::Bounded::k_fits), unfolding(crate::specs::Terms::reworked, crate::specs::State::with_capacity))]
fn reworked(t: InRange<Terms>, a: InRange<Account>) -> Account
    ensures { result ≡ reworked t.value a.value }
{
    let a = a.get();
    if !a.opened {
        return a;
    }
    Account {
        capacity: t.capacity(a.step.k),
        ..a
    }
}

fn terms_next(l: &Ledger, e: Admitted) -> Ledger
    requires { (admission l.now e.entry ≡ 0) × (e.kind ≡ TERMS) }
    ensures { result ≡ terms_next l.now e.entry }
{
    let terms = InRange::of(e.entry.terms());
    let mut next = *l;
    for a in next.accounts.iter_mut() {
        *a = reworked(terms, InRange::of(*a));
    }
    next.begun = true;
    next.touched = true;
    next.date = e.entry.date;
    next.terms = terms.get();
    next
}

#[tactic(auto, unfolding(crate::specs::Terms::post_terms, crate::specs::Terms::terms_checks, crate::specs::Answers::settle, crate::specs::Answers::refused, crate::specs::Checks::verdict, crate::specs::Refusals::number))]
pub fn post_terms(l: &mut Ledger, e: Admitted) -> Result<(), Refusal>
    requires { (admission l.old e.entry ≡ 0) × (e.kind ≡ TERMS) }
    ensures { refused l.new (number_of result) ≡ post_terms l.old e.entry }
{
    let next = terms_next(l, e);
    if !next.in_range() {
        return Err(Refusal::LeavesRange);
    }
    *l = next;
    Ok(())
}
