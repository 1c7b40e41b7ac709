// The kinds of entries, and the one table of what each uses.
ghost use Rattle.std.specs.Prelude.{◌≡◌};
ghost use Rattle.ledger.specs.Kinds.{row, version, kind_of, code, Names};

use crate::refusals::Refusal;

#[derive(Clone, Copy, PartialEq, Eq, Debug)]
pub enum Kind {
    Terms,
    Enrol,
    Deliver,
    Transfer,
    Trade,
    Measure,
    Usage,
    CloseDay,
    CloseMonth,
    Confiscated,
    Holiday,
    Notice,
}

#[derive(Clone, Copy, PartialEq, Eq, Debug)]
pub struct Uses {
    // How many accounts it names: none, A, or A and B. The rules of a kind that names one see that account only.
    pub accounts: u64,
    // The largest flag.
    pub flags: u64,
    // How many of w1 to w6 it uses.
    pub words: u64,
    // The version of the rules that brought it: 1 the old ones, 2 the new ones. A number, as the definition's table has 255 for what is no kind.
    pub since: u64,
}

// By the number in an entry's first byte.
impl TryFrom<u64> for Kind {
    type Error = Refusal;

    ghost try_from_gives = { Names };

    #[tactic(auto, unfolding(crate::specs::Kinds::code, crate::specs::Kinds::kind_of, crate::specs::Kinds::lookup))]
    fn try_from(number: u64) -> Result<Self, Refusal> {
        match number {
            1 => Ok(Kind::Terms),
            2 => Ok(Kind::Enrol),
            3 => Ok(Kind::Deliver),
            4 => Ok(Kind::Transfer),
            5 => Ok(Kind::Trade),
            6 => Ok(Kind::Measure),
            7 => Ok(Kind::Usage),
            8 => Ok(Kind::CloseDay),
            9 => Ok(Kind::CloseMonth),
            10 => Ok(Kind::Confiscated),
            11 => Ok(Kind::Holiday),
            12 => Ok(Kind::Notice),
            _ => Err(Refusal::NoSuchKind),
        }
    }
}

impl Kind {
    #[tactic(auto, unfolding(crate::specs::Kinds::code, crate::specs::Kinds::kind_of, crate::specs::Kinds::lookup))]
    pub fn uses(self) -> Uses
        ensures { result ≡ kind_of (code self) }
    {
        let (accounts, flags, words, since) = match self {
            Kind::Terms => (0, 0, 6, 1),
            Kind::Enrol => (1, 3, 2, 1),
            Kind::Deliver => (1, 0, 2, 1),
            Kind::Transfer => (2, 0, 2, 1),
            Kind::Trade => (1, 1, 1, 1),
            Kind::Measure => (1, 0, 1, 1),
            Kind::Usage => (1, 0, 1, 1),
            Kind::CloseDay => (0, 0, 0, 1),
            Kind::CloseMonth => (0, 0, 4, 1),
            Kind::Confiscated => (1, 0, 1, 2),
            Kind::Holiday => (0, 0, 3, 2),
            Kind::Notice => (2, 1, 1, 2),
        };
        Uses {
            accounts,
            flags,
            words,
            since,
        }
    }
}

// The rules of an old ledger or archive, or of a new one: a number, which `since` is compared with.
pub fn version(is_new: bool) -> u64
    ensures { result ≡ version is_new }
{
    if is_new { 2 } else { 1 }
}
