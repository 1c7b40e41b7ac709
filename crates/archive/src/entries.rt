// A list of entries, and which of them is at fault first.
ghost use Rattle.std.specs.Prelude.{◌≡◌, ◌+◌, ◌≤◌, ℕ, Bool, List, length, map};
ghost use Rattle.ledger.specs.Forms.{form_number};
ghost use Rattle.archive.specs.Entries.{entries_of, closes_month, first_refusal, numbers_by};
ghost use Rattle.archive.specs.Faults.{Passes, Tells};
ghost use Rattle.archive.specs.Reading.{number_in};

use crate::faults::{Fault, Trouble};

// CLOSE MONTH, as the byte that an entry begins with. A byte and no Kind, as it alone decides, also in an entry that is no entry.
const CLOSE_MONTH: u8 = 9;

// Whether an entry closes a month, and so ends its section.
#[tactic(auto, unfolding(crate::specs::Entries::closes_month), using(ledger::proofs::Fields::kind_byte))]
pub fn closes_month(entry: &[u8; 32]) -> bool
    ensures { result ≡ closes_month entry.now }
{
    entry[0] == CLOSE_MONTH
}

// The entries of some bytes, as far as they are whole.
#[tactic(auto, unfolding(crate::specs::Entries::entries_of), using(crate::proofs::EntryLists::chunks_entries))]
pub fn entries_of(bytes: &[u8]) -> &[[u8; 32]]
    ensures { result.now ≡ entries_of bytes.now }
{
    let (entries, _) = bytes.as_chunks::<32>();
    entries
}

// What is asked of an entry, told whether it is the last of some.
pub trait Asks: Copy {
    ghost number: { Self → Bool → List ℕ → ℕ };

    fn ask(self, entry: &[u8; 32], ends: bool) -> Result<(), Fault>
        ensures { Passes result (number self ends entry.now) };
}

// The first of some entries at fault; the index of the first of all is `first`.
pub fn first_fault<A: Asks>(asks: A, entries: &[[u8; 32]], first: usize) -> Result<(), Trouble>
    requires { first + length entries.now ≤ 18446744073709551615 }
    ensures { Tells result (first_refusal first (numbers_by (A.number asks) entries.now)) }
{
    for (k, entry) in entries.iter().enumerate() {
        let ends = k + 1 == entries.len();
        if let Err(fault) = asks.ask(entry, ends) {
            return Err(Trouble {
                fault,
                index: first + k,
            });
        }
    }
    Ok(())
}

// An entry by itself, in an old list or a new one.
#[derive(Clone, Copy)]
pub struct ByItself {
    pub is_new: bool,
}

impl Asks for ByItself {
    ghost number = { λ a ends e. form_number a.is_new e };

    #[tactic(auto, unfolding(crate::specs::Faults::fault_number))]
    fn ask(self, entry: &[u8; 32], _: bool) -> Result<(), Fault> {
        ledger::check_entry(self.is_new, entry).map_err(Fault::from)
    }
}

// An entry of a section, the last of an archive or another.
#[derive(Clone, Copy)]
pub struct InSection {
    pub is_new: bool,
    pub last: bool,
}

impl Asks for InSection {
    ghost number = { λ a ends e. number_in a.is_new ends a.last e };

    #[tactic(auto, unfolding(crate::specs::Reading::number_in, crate::specs::Reading::misplaced, crate::specs::Faults::fault_number))]
    fn ask(self, entry: &[u8; 32], ends: bool) -> Result<(), Fault> {
        ledger::check_entry(self.is_new, entry)?;
        let placed = if closes_month(entry) {
            ends
        } else {
            !ends | self.last
        };
        if placed {
            Ok(())
        } else {
            Err(Fault::Misplaced)
        }
    }
}
