// Why an entry or a posting is refused.
ghost use Rattle.std.specs.Prelude.{◌≡◌};
ghost use Rattle.ledger.specs.Refusals.{number};

// In the order in which faults are looked for. C gets the number of each, by From.
#[derive(Clone, Copy, PartialEq, Eq, Debug)]
pub enum Refusal {
    WrongLength,
    NoSuchKind,
    NoSuchDate,
    NoSuchAccount,
    UnusedSet,
    OutOfRange,
    WrongTransfer,
    LedgerOutOfRange,
    NotBegun,
    OtherDay,
    // A TRANSFER in a ledger that has letters alone by now.
    Retired,
    WrongDay,
    // Not open; of an ENROL, open already.
    NotOpen,
    StaysOnFbs,
    AlreadyTold,
    Incomplete,
    PastLimit,
    LeavesRange,
    PassedHoliday,
    HolidayNamed,
    NoDayLeft,
}

impl From<Refusal> for u64 {
    ghost from_gives = { λ r n. n ≡ number r };

    #[tactic(auto, unfolding(crate::specs::Refusals::number))]
    fn from(refusal: Refusal) -> u64 {
        match refusal {
            Refusal::WrongLength => 1,
            Refusal::NoSuchKind => 2,
            Refusal::NoSuchDate => 3,
            Refusal::NoSuchAccount => 4,
            Refusal::UnusedSet => 5,
            Refusal::OutOfRange => 6,
            Refusal::WrongTransfer => 7,
            Refusal::LedgerOutOfRange => 20,
            Refusal::NotBegun => 21,
            Refusal::OtherDay => 22,
            Refusal::Retired => 36,
            Refusal::WrongDay => 23,
            Refusal::NotOpen => 24,
            Refusal::StaysOnFbs => 25,
            Refusal::AlreadyTold => 26,
            Refusal::Incomplete => 27,
            Refusal::PastLimit => 28,
            Refusal::LeavesRange => 29,
            Refusal::PassedHoliday => 33,
            Refusal::HolidayNamed => 34,
            Refusal::NoDayLeft => 35,
        }
    }
}
