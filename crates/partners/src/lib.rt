// Who can take a supplier's gas: the accounts that could receive it today, in order.
#![tactic(auto)]

mod answers;
mod finding;
mod order;
mod places;
mod receivers;

ghost use Rattle.std.specs.Prelude.{◌≡◌};
ghost use Rattle.partners.specs.EveryList.{EveryList, EveryOrder, OnlyOne};
ghost use Rattle.partners.specs.Listing.{partners_of};
ghost use Rattle.partners.specs.Transfers.{ListedCanBeSent, ListedCanWrite};
ghost use Rattle.partners.specs.WorkedCases.{WorkedCases};

use crate::finding::found;
use ledger::Ledger;

// The types that cross the boundary; the functions that do stand below, and none of them requires anything.
pub use answers::PartnerList;

// Any seller and any quantity, of any ledger.
pub fn partners(ledger: Ledger, seller: u64, quantity: u64) -> PartnerList
    ensures { result ≡ partners_of ledger seller quantity }
{
    PartnerList::from(found(&ledger, seller, quantity))
}

// R98: who is listed, how often and in which order; and that this leaves one list only.
#[tactic(auto, using(crate::proofs::Members::every_list, crate::proofs::Members::no_other, crate::proofs::Orders::every_order))]
pub fn every_list()
    ensures lists { EveryList }
    ensures order { EveryOrder }
    ensures only_one { OnlyOne }
{}

// R99: those listed, and no others, could be sent the gas now: by a TRANSFER, on a day that has any, and by two letters.
pub fn listed_can_be_sent()
    ensures sent { ListedCanBeSent }
    ensures written { ListedCanWrite }
{}

// R100: cases worked out in advance, as one group.
pub fn worked_cases()
    ensures { WorkedCases }
{}
