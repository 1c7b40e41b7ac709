// Giving and taking gas, as rules of one account.
ghost use Rattle.std.specs.Prelude.{◌≡◌, ◌≤◌};
ghost use Rattle.tariff.specs.Amounts.{size};
ghost use Rattle.tariff.specs.Bounds.{most_bank, most_bcq, most_units};
ghost use Rattle.ledger.specs.Gas.{moving};
ghost use Rattle.ledger.specs.Refusals.{Makes};

use crate::changes::checked;
use crate::refusals::Refusal;
use crate::state::Account;
use tariff::amounts::Quantity;
use tariff::limits::Limits;
use tariff::months::Month;

// What an account does as gas changes hands.
#[derive(Clone, Copy, PartialEq, Eq, Debug)]
pub enum Side {
    Gives,
    Takes,
}

// Within the limits that the month sets the account. What a trade books may take an account out of its range, so bank and BCQ alone
// are asked for, and not an account in range.
#[tactic(auto, unfolding(crate::specs::Gas::giving, crate::specs::Gas::giving_checks, crate::specs::Gas::after_giving, crate::specs::Gas::taking, crate::specs::Gas::taking_checks, crate::specs::Gas::after_taking, crate::specs::State::with_bank, crate::specs::Checks::verdict, crate::specs::Refusals::number))]
pub fn moved(side: Side, m: Month, a: Account, q: Quantity) -> Result<Account, Refusal>
    requires { (size a.bank ≤ most_bank) × (a.capacity.bcq.0 ≤ most_bcq) × (q.0 ≤ most_units) }
    ensures { Makes result (moving side m a q) }
{
    let limits = Limits::of(m, a.capacity.bcq);
    let (bank, past) = match side {
        Side::Gives => {
            let bank = a.bank - q;
            (bank, limits.below_minimum(bank))
        }
        Side::Takes => {
            let bank = a.bank + q;
            (bank, limits.above_maximum(bank))
        }
    };
    if past {
        return Err(Refusal::PastLimit);
    }
    checked(Account { bank, ..a })
}
