// What is wrong with a list, an archive or a question about one.
ghost use Rattle.std.specs.Prelude.{◌≡◌};
ghost use Rattle.archive.specs.Faults.{fault_number};
ghost use Rattle.archive.specs.declared.faults.Fault.TheVariants.{Entry};

use ledger::Refusal;

// In the order in which faults are looked for. C gets the number of each, by From.
#[derive(Clone, Copy, PartialEq, Eq, Debug)]
pub enum Fault {
    // A list's length is no multiple of 32.
    InPieces,
    // An entry by itself, wherever it stands.
    Entry(Refusal),
    WrongHeader,
    WrongDirectory,
    Misplaced,
    TooLarge,
    NoRoom,
    NoSuchSection,
}

impl From<Fault> for u64 {
    ghost from_gives = { λ f n. n ≡ fault_number f };

    #[tactic(auto, unfolding(crate::specs::Faults::fault_number))]
    fn from(fault: Fault) -> u64 {
        match fault {
            Fault::InPieces => 1,
            Fault::Entry(refusal) => u64::from(refusal),
            Fault::WrongHeader => 8,
            Fault::WrongDirectory => 9,
            Fault::Misplaced => 10,
            Fault::TooLarge => 11,
            Fault::NoRoom => 12,
            Fault::NoSuchSection => 13,
        }
    }
}

impl From<Refusal> for Fault {
    ghost from_gives = { λ r f. f ≡ Entry r };

    fn from(refusal: Refusal) -> Fault {
        Fault::Entry(refusal)
    }
}

#[derive(Clone, Copy, PartialEq, Eq, Debug)]
pub struct Trouble {
    pub fault: Fault,
    // Of the entry at fault, counted over the whole list or file; 0 where it is none, and no Option, as `finding` has it and C gets it.
    pub index: usize,
}

impl From<Fault> for Trouble {
    ghost from_gives = { λ f t. t ≡ record { fault = f; index = 0 } };

    fn from(fault: Fault) -> Trouble {
        Trouble { fault, index: 0 }
    }
}
