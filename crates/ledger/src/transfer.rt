// TRANSFER.
ghost use Rattle.std.specs.Prelude.{◌≡◌, ◌<◌, ◌≤◌, true};
ghost use Rattle.tariff.specs.Bounds.{most_units};
ghost use Rattle.ledger.specs.Answers.{refused, settle};
ghost use Rattle.ledger.specs.Checks.{verdict};
ghost use Rattle.ledger.specs.Gas.{giving, taking};
ghost use Rattle.ledger.specs.Posting.{admission};
ghost use Rattle.ledger.specs.Ranges.{account_in_range};
ghost use Rattle.ledger.specs.Refusals.{number_of};
ghost use Rattle.ledger.specs.State.{account_at, with_account};
ghost use Rattle.ledger.specs.Transfer.{Hands, handing_checks, post_transfer};
ghost use Rattle.ledger.specs.declared.kinds.Kind.TheVariants.{Transfer};

use crate::admitted::Admitted;
use crate::gas::{Side, moved};
use crate::refusals::Refusal;
use crate::state::{Account, Ledger};
use tariff::amounts::Quantity;
use tariff::months::Month;
use tariff::ranged::InRange;

// Giver and receiver afterwards. The limit of either is asked before the range of either. The quantity's bound is asked here, of trade's booked
// and of moved: an entry has plain words, so a type for it would be made anew in each kind, for one use.
#[tactic(auto, using(crate::proofs::Bounded::bounds), unfolding(crate::specs::Transfer::handing_checks, crate::specs::Checks::verdict, crate::specs::Refusals::number))]
fn handed(
    m: Month,
    a: InRange<Account>,
    b: InRange<Account>,
    q: Quantity,
) -> Result<(Account, Account), Refusal>
    requires { q.0 ≤ most_units }
    ensures { Hands result m a.value b.value q }
{
    let (a, b) = (a.get(), b.get());
    if !(a.opened & b.opened) {
        return Err(Refusal::NotOpen);
    }
    match (moved(Side::Gives, m, a, q), moved(Side::Takes, m, b, q)) {
        (Ok(giver), Ok(receiver)) => Ok((giver, receiver)),
        (Err(Refusal::PastLimit), _) | (_, Err(Refusal::PastLimit)) => Err(Refusal::PastLimit),
        _ => Err(Refusal::LeavesRange),
    }
}

// From one account to another: both are stored, or neither.
#[inline(never)]
#[tactic(auto, using(crate::proofs::Refused::refuses), unfolding(crate::specs::State::account_at, crate::specs::State::nobody, crate::specs::State::no_month, crate::specs::State::no_today, crate::specs::State::no_totals, crate::specs::State::with_account, crate::specs::Answers::settle, crate::specs::Answers::refused))]
pub fn hand_on(l: &mut Ledger, from: usize, to: usize, m: Month, q: Quantity) -> Result<(), Refusal>
    requires places { (from < 16) × (to < 16) }
    requires in_range { (account_in_range (account_at l.old from) ≡ true) × (account_in_range (account_at l.old to) ≡ true) × (q.0 ≤ most_units) }
    ensures { refused l.new (number_of result)
        ≡ settle l.old (verdict (handing_checks m (account_at l.old from) (account_at l.old to) q))
        (with_account (with_account l.old from (giving m (account_at l.old from) q).account) to (taking m (account_at l.old to) q).account) }
{
    let a = InRange::of(l.accounts[from]);
    let b = InRange::of(l.accounts[to]);
    let (giver, receiver) = handed(m, a, b, q)?;
    l.accounts[from] = giver;
    l.accounts[to] = receiver;
    l.touched = true;
    Ok(())
}

#[tactic(auto, unfolding(crate::specs::Transfer::post_transfer, crate::specs::Transfer::transfer_checks, crate::specs::Transfer::giver, crate::specs::Transfer::receiver))]
pub fn post_transfer(l: &mut Ledger, e: Admitted) -> Result<(), Refusal>
    requires { (admission l.old e.entry ≡ 0) × (e.kind ≡ Transfer) }
    ensures { refused l.new (number_of result) ≡ post_transfer l.old e.entry }
{
    let entry = e.entry;
    hand_on(l, entry.a, entry.b, entry.date.month, Quantity(entry.w1))
}
