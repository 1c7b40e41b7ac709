// TRADE.
ghost use Rattle.std.specs.Prelude.{◌≡◌, ◌≤◌};
ghost use Rattle.tariff.specs.Amounts.{size};
ghost use Rattle.tariff.specs.Bounds.{most_bank, most_bcq, most_units};
ghost use Rattle.ledger.specs.Refusals.{Makes};
ghost use Rattle.ledger.specs.Trade.{booked, sold, trade};
ghost use Rattle.ledger.specs.declared.kinds.Kind.TheVariants.{Trade};

use crate::admitted::Admitted;
use crate::gas::{Side, moved};
use crate::refusals::Refusal;
use crate::state::{Account, ThisMonth};
use tariff::amounts::Quantity;
use tariff::bill::Totals;
use tariff::ranged::InRange;

// What a month's trades say has no part in bank and BCQ.
#[tactic(auto, using(crate::proofs::Bounded::bounds), unfolding(crate::specs::Trade::booked, crate::specs::Trade::with_trade, crate::specs::State::with_month, crate::specs::State::with_totals))]
fn booked(side: Side, a: InRange<Account>, q: Quantity) -> Account
    requires { q.0 ≤ most_units }
    ensures value { result ≡ booked (sold side) a.value q }
    ensures bounded { (size result.bank ≤ most_bank) × (result.capacity.bcq.0 ≤ most_bcq) }
{
    let a = a.get();
    let so_far = a.month.totals;
    let totals = match side {
        Side::Takes => Totals {
            sales: so_far.sales + q,
            ..so_far
        },
        Side::Gives => Totals {
            purchases: so_far.purchases + q,
            ..so_far
        },
    };
    let month = ThisMonth { totals, ..a.month };
    Account { month, ..a }
}

#[tactic(auto, using(crate::proofs::RightEntries::trade_fits), unfolding(crate::specs::Trade::trade, crate::specs::Trade::traded, crate::specs::Kinds::code, crate::specs::Refusals::number))]
pub fn trade(account: InRange<Account>, e: Admitted) -> Result<Account, Refusal>
    requires { e.kind ≡ Trade }
    ensures { Makes result (trade account.value e.entry) }
{
    if !account.get().opened {
        return Err(Refusal::NotOpen);
    }
    let side = if e.entry.company_sells() {
        Side::Takes
    } else {
        Side::Gives
    };
    let q = Quantity(e.entry.w1);
    moved(side, e.entry.date.month, booked(side, account, q), q)
}
