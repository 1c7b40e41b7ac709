// ENROL.
ghost use Rattle.std.specs.Prelude.{◌≡◌, ◌≤◌};
ghost use Rattle.tariff.specs.Bounds.{most_bcq, most_mdq, most_units};
ghost use Rattle.ledger.specs.Enrol.{new_account, enrolment};
ghost use Rattle.ledger.specs.Refusals.{Makes};
ghost use Rattle.ledger.specs.declared.kinds.Kind.TheVariants.{Enrol};

use crate::admitted::Admitted;
use crate::changes::checked;
use crate::refusals::Refusal;
use crate::state::Account;
use tariff::amounts::{Dth, Quantity, Units};
use tariff::enrol::{opening_too_high, stays_on_fbs};
use tariff::ranged::InRange;
use tariff::steps::Step;
use tariff::terms::Terms;

#[tactic(auto, unfolding(crate::specs::Enrol::new_account, crate::specs::State::as_open, crate::specs::State::nobody, crate::specs::State::no_month, crate::specs::State::no_today, crate::specs::State::no_totals, crate::specs::State::with_bank, crate::specs::State::with_measure, crate::specs::State::with_capacity))]
fn new_account(t: InRange<Terms>, mdq: Dth, opening: Quantity) -> Account
    requires { (mdq.0 ≤ most_mdq) × (opening.0 ≤ most_units) }
    ensures value { result ≡ new_account t.value mdq opening }
    ensures bounded { result.capacity.bcq.0 ≤ most_bcq }
{
    let step = Step::first(mdq);
    Account {
        opened: true,
        bank: Units::of(opening),
        mdq,
        step,
        capacity: t.capacity(step.k),
        ..Account::default()
    }
}

#[tactic(auto, using(crate::proofs::RightEntries::enrol_fits), unfolding(crate::specs::Enrol::enrolment, crate::specs::Enrol::enrol_checks, crate::specs::Enrol::enrolled, crate::specs::Checks::verdict, crate::specs::Kinds::code, crate::specs::Refusals::number))]
pub fn enrolment(t: InRange<Terms>, a: Account, e: Admitted) -> Result<Account, Refusal>
    requires { e.kind ≡ Enrol }
    ensures { Makes result (enrolment t.value a e.entry) }
{
    if a.opened {
        return Err(Refusal::NotOpen);
    }
    let mdq = Dth(e.entry.w1);
    if stays_on_fbs(e.entry.process_only(), e.entry.wishes(), mdq) {
        return Err(Refusal::StaysOnFbs);
    }
    let opening = Quantity(e.entry.w2);
    let b = new_account(t, mdq, opening);
    if opening_too_high(opening, b.capacity.bcq) {
        return Err(Refusal::PastLimit);
    }
    checked(b)
}
