// USAGE.
ghost use Rattle.std.specs.Prelude.{◌≡◌};
ghost use Rattle.ledger.specs.Refusals.{Makes};
ghost use Rattle.ledger.specs.Usage.{metered, usage};

use crate::changes::{checked, untold};
use crate::entries::Entry;
use crate::refusals::Refusal;
use crate::state::{Account, ThisMonth};
use tariff::amounts::Mcf;
use tariff::bill::Totals;

#[tactic(auto, unfolding(crate::specs::Usage::metered, crate::specs::Usage::with_usage, crate::specs::State::with_month))]
fn metered(a: Account, usage: Mcf) -> Account
    ensures { result ≡ metered a usage }
{
    let month = ThisMonth {
        totals: Totals {
            usage,
            ..a.month.totals
        },
        metered: true,
        ..a.month
    };
    Account { month, ..a }
}

#[tactic(auto, unfolding(crate::specs::Usage::usage, crate::specs::Usage::usage_checks, crate::specs::Usage::after_usage, crate::specs::Checks::verdict, crate::specs::Refusals::number))]
pub fn usage(a: Account, e: Entry) -> Result<Account, Refusal>
    ensures { Makes result (usage a e) }
{
    untold(a, a.month.metered)?;
    checked(metered(a, Mcf(e.w1)))
}
