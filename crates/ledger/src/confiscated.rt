// CONFISCATED.
ghost use Rattle.std.specs.Prelude.{◌≡◌};
ghost use Rattle.ledger.specs.Refusals.{Makes};
ghost use Rattle.ledger.specs.Confiscated.{after_confiscation, confiscation};

use crate::changes::{checked, untold};
use crate::entries::Entry;
use crate::refusals::Refusal;
use crate::state::{Account, Today};
use tariff::amounts::Quantity;

#[tactic(auto, unfolding(crate::specs::Confiscated::after_confiscation, crate::specs::Confiscated::confiscated_today, crate::specs::State::with_today))]
fn with_confiscation(a: Account, e: Entry) -> Account
    ensures { result ≡ after_confiscation a e }
{
    let today = Today {
        confiscated: true,
        confiscation: Quantity(e.w1),
        ..a.today
    };
    Account { today, ..a }
}

#[tactic(auto, unfolding(crate::specs::Confiscated::confiscation, crate::specs::Confiscated::confiscation_checks, crate::specs::Checks::verdict, crate::specs::Refusals::number))]
pub fn confiscation(a: Account, e: Entry) -> Result<Account, Refusal>
    ensures { Makes result (confiscation a e) }
{
    untold(a, a.today.confiscated)?;
    checked(with_confiscation(a, e))
}
