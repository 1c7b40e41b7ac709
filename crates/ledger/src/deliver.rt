// DELIVER.
ghost use Rattle.std.specs.Prelude.{◌≡◌, ◌≤◌};
ghost use Rattle.tariff.specs.Amounts.{size};
ghost use Rattle.tariff.specs.Bounds.{most_units};
ghost use Rattle.ledger.specs.Deliver.{delivered, delivery};
ghost use Rattle.ledger.specs.Refusals.{Makes};
ghost use Rattle.ledger.specs.declared.kinds.Kind.TheVariants.{Deliver};

use crate::admitted::Admitted;
use crate::changes::{checked, untold};
use crate::refusals::Refusal;
use crate::state::{Account, ThisMonth, Today};
use tariff::amounts::{Quantity, Units};
use tariff::bill::Totals;
use tariff::delivery::Delivery;
use tariff::limits::Limits;
use tariff::months::Month;
use tariff::ranged::InRange;
use tariff::terms::Terms;

#[tactic(auto, using(crate::proofs::Bounded::bounds), unfolding(crate::specs::Deliver::delivered, crate::specs::Deliver::delivered_today, crate::specs::Deliver::with_net, crate::specs::State::with_bank, crate::specs::State::with_month, crate::specs::State::with_today, crate::specs::State::with_totals))]
fn delivered(m: Month, a: InRange<Account>, amount: Units, back_cast: Quantity) -> Account
    requires { size amount ≤ most_units }
    ensures { result ≡ delivered m a.value amount back_cast }
{
    let a = a.get();
    let limits = Limits::of(m, a.capacity.bcq);
    // The share looks at the bank before the delivery.
    let share = limits.open_share(a.bank, back_cast, a.mdq);
    let today = Today {
        delivered: true,
        v1: limits.breaks_v1(amount),
        v2: share.breaks_v2(a.capacity.mddq, amount),
        ..a.today
    };
    let totals = Totals {
        net: a.month.totals.net + amount,
        ..a.month.totals
    };
    Account {
        bank: a.bank + amount,
        month: ThisMonth { totals, ..a.month },
        today,
        ..a
    }
}

#[tactic(auto, using(crate::proofs::RightEntries::deliver_fits, tariff::proofs::Ranges::terms_bounds), unfolding(crate::specs::Deliver::delivery, crate::specs::Deliver::deliver_checks, crate::specs::Deliver::after_delivery, crate::specs::Deliver::amount_under, crate::specs::Checks::verdict, crate::specs::Kinds::code, crate::specs::Refusals::number))]
pub fn delivery(
    t: InRange<Terms>,
    account: InRange<Account>,
    e: Admitted,
) -> Result<Account, Refusal>
    requires { e.kind ≡ Deliver }
    ensures { Makes result (delivery t.value account.value e.entry) }
{
    let a = account.get();
    untold(a, a.today.delivered)?;
    let back_cast = Quantity(e.entry.w2);
    let told = Delivery::of(t.get().retainage, Quantity(e.entry.w1), back_cast);
    checked(delivered(e.entry.date.month, account, told.retained(), back_cast))
}
