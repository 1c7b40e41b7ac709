// The entries of an archive, posted in order to a fresh ledger.
ghost use Rattle.std.specs.Prelude.{◌≡◌};
ghost use Rattle.ledger.specs.State.{fresh};
ghost use Rattle.ledger.specs.Running.{history, run};
ghost use Rattle.archive.specs.Replay.{count_of, as_accepted, as_refused};

use crate::answers::Checked;
use ledger::Ledger;
use tariff::amounts::Units;

// A refused archive is replayed too, as no entries, so this is no Result. Two are compared nowhere; the code for it would lie in the image.
#[derive(Clone, Copy)]
pub struct Replay {
    // Of the archive; with a refusal the counts are 0 and the ledger is fresh.
    pub number: u64,
    pub index: usize,
    pub accepted: u64,
    pub refused: u64,
    pub ledger: Ledger,
}

// What the panel program prints. As C reads it, with number and index of `Checked`.
#[repr(C)]
#[derive(Clone, Copy, PartialEq, Eq, Debug)]
pub struct Figures {
    pub number: u64,
    pub index: usize,
    pub accepted: u64,
    pub refused: u64,
    pub figure: Units,
}

// The year sheet walks the entries too, but what the two keep is nothing alike: one walk of a closure, a ledger and a state would be no plainer.
// The counts and the ledger after every entry of an old list or a new one, beside what was found of the archive that it stands in.
pub fn post_all(is_new: bool, entries: &[[u8; 32]], found: Checked) -> Replay
    ensures number { (result.number ≡ found.number) × (result.index ≡ found.index) }
    ensures accepted { result.accepted ≡ count_of as_accepted (history (fresh is_new) entries.now) }
    ensures refused { result.refused ≡ count_of as_refused (history (fresh is_new) entries.now) }
    ensures ledger { result.ledger ≡ run (fresh is_new) entries.now }
{
    let mut ledger = ledger::fresh(is_new);
    let mut accepted = 0;
    let mut refused = 0;
    for entry in entries {
        let answer = ledger::post_in(&mut ledger, entry);
        let one = u64::from(answer.accepted());
        accepted += one;
        refused += 1 - one;
    }
    Replay {
        number: found.number,
        index: found.index,
        accepted,
        refused,
        ledger,
    }
}
