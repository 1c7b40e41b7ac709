// What a posting makes of the one account that it concerns.
ghost use Rattle.std.specs.Prelude.{◌≡◌, ℕ, true, false, cond, not, MatchResult};
ghost use Rattle.ledger.specs.Ranges.{account_in_range};
ghost use Rattle.ledger.specs.Refusals.{number};
ghost use Rattle.ledger.specs.declared.refusals.Refusal.TheVariants.{LeavesRange};

use crate::refusals::Refusal;
use crate::state::Account;
use tariff::ranged::Ranged;

// 24 and 26, which come first where an open account is told something once.
#[tactic(auto, unfolding(crate::specs::Refusals::number))]
pub fn untold(a: Account, told: bool) -> Result<(), Refusal>
    ensures { MatchResult result (λ _. (a.opened ≡ true) × (told ≡ false)) (λ r. (n : ℕ) → cond (not a.opened) 24 (cond told 26 n) ≡ number r) }
{
    if !a.opened {
        return Err(Refusal::NotOpen);
    }
    if told {
        return Err(Refusal::AlreadyTold);
    }
    Ok(())
}

// 29, which every kind asks last.
pub fn checked(a: Account) -> Result<Account, Refusal>
    ensures { MatchResult result (λ b. (account_in_range a ≡ true) × (b ≡ a)) (λ r. (account_in_range a ≡ false) × (r ≡ LeavesRange)) }
{
    if a.in_range() {
        Ok(a)
    } else {
        Err(Refusal::LeavesRange)
    }
}
