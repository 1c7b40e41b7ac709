// What is answered: a number, and the partners' account numbers.
ghost use Rattle.std.specs.Prelude.{◌≡◌, map};
ghost use Rattle.partners.specs.Listing.{answer, answered};
ghost use Rattle.partners.specs.Structs.{Partner};

use crate::places::Places;
use ledger::Refusal;

// C has no Result and no lists, so the number and the count lie beside the accounts. The struct comes from the Result by From, at the one spot below.
#[repr(C)]
#[derive(Clone, Copy, PartialEq, Eq, Debug)]
pub struct PartnerList {
    pub number: u64,
    pub count: u64,
    // In the first `count` places; 0 in those past it.
    pub accounts: [u64; 16],
}

// With 0 in the places that are left. An index writes: tried with accounts.iter_mut().zip(..), and the proof did not close, as no invariant of
// such a loop can name the array.
fn numbers(places: &Places) -> [u64; 16]
    ensures { result ≡ (answer 0 (map (λ (p : Partner). p.account) places.now.items)).accounts }
{
    let mut accounts = [0; 16];
    for (k, partner) in places.as_slice().iter().enumerate() {
        accounts[k] = partner.account;
    }
    accounts
}

impl From<Result<Places, Refusal>> for PartnerList {
    ghost from_gives = { λ r list. list ≡ answered r };

    #[tactic(auto, unfolding(crate::specs::Listing::answered, crate::specs::Listing::answer))]
    fn from(places: Result<Places, Refusal>) -> PartnerList {
        match places {
            Ok(places) => PartnerList {
                number: 0,
                // A cast: no From, and a TryFrom would need an arm for what cannot come.
                count: places.len() as u64,
                accounts: numbers(&places),
            },
            Err(refusal) => PartnerList {
                number: u64::from(refusal),
                count: 0,
                accounts: [0; 16],
            },
        }
    }
}
