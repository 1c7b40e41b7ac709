// MEASURE.
ghost use Rattle.std.specs.Prelude.{◌≡◌};
ghost use Rattle.ledger.specs.Measure.{remeasured, measurement};
ghost use Rattle.ledger.specs.Refusals.{Makes};

use crate::admitted::Admitted;
use crate::changes::{checked, untold};
use crate::refusals::Refusal;
use crate::state::{Account, ThisMonth};
use tariff::amounts::Dth;
use tariff::ranged::InRange;

#[tactic(auto, using(crate::proofs::Bounded::bounds), unfolding(crate::specs::Measure::remeasured, crate::specs::State::with_measure, crate::specs::State::with_month))]
fn remeasured(a: InRange<Account>, mdq: Dth) -> Account
    ensures { result ≡ remeasured a.value mdq }
{
    let a = a.get();
    let month = ThisMonth {
        measured: true,
        ..a.month
    };
    Account {
        mdq,
        step: a.step.measured(mdq),
        month,
        ..a
    }
}

#[tactic(auto, unfolding(crate::specs::Measure::measurement, crate::specs::Measure::measure_checks, crate::specs::Measure::after_measure, crate::specs::Checks::verdict, crate::specs::Refusals::number))]
pub fn measurement(account: InRange<Account>, e: Admitted) -> Result<Account, Refusal>
    ensures { Makes result (measurement account.value e.entry) }
{
    let a = account.get();
    untold(a, a.month.measured)?;
    checked(remeasured(account, Dth(e.entry.w1)))
}
