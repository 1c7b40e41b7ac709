// What a posting answers, and the ledger that it leaves.
ghost use Rattle.std.specs.Prelude.{◌≡◌, eqb};
ghost use Rattle.ledger.specs.Refusals.{number_of};
ghost use Rattle.ledger.specs.Answers.{plain};

use crate::refusals::Refusal;
use crate::state::Ledger;
use tariff::amounts::{Mills, Quantity, Units};

// Of one account, from an accepted closing.
#[repr(C)]
#[derive(Clone, Copy, PartialEq, Eq, Default, Debug)]
pub struct Report {
    // V1 is 1, V2 is 2, up to V8 128: bits, as C reads them.
    pub mask: u64,
    // In positive, out negative.
    pub cash: Units,
    pub forfeit: Quantity,
    pub bill: Mills,
}

#[repr(C)]
#[derive(Clone, Copy, PartialEq, Eq, Default, Debug)]
pub struct Answer {
    // 0 is acceptance. A number, and no Option of a Refusal, as C reads it.
    pub number: u64,
    // Sixteen, as the accounts are: C's, and no heap.
    pub reports: [Report; 16],
}

impl Answer {
    pub fn accepted(self) -> bool
        ensures { result ≡ eqb self.number 0 }
    {
        self.number == 0
    }
}

// Compared and printed nowhere, as the ledger in it.
#[repr(C)]
#[derive(Clone, Copy)]
pub struct Posted {
    pub answer: Answer,
    pub ledger: Ledger,
}

// A refusal, or the acceptance of what no closing is. Panel has the same arms and its own impl, as C's structs differ in what stands beside the number.
impl From<Result<(), Refusal>> for Answer {
    ghost from_gives = { λ r a. a ≡ plain (number_of r) };

    #[tactic(auto, unfolding(crate::specs::Refusals::number_of, crate::specs::Answers::plain, crate::specs::Answers::quiet))]
    fn from(outcome: Result<(), Refusal>) -> Answer {
        let number = outcome.err().map_or(0, u64::from);
        let reports = [Report::default(); 16];
        Answer { number, reports }
    }
}
