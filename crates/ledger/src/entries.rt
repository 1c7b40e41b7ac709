// An entry of 32 bytes, taken apart, and what its words and flags mean.
ghost use Rattle.std.specs.Prelude.{◌≡◌, ◌+◌, ◌≤◌};
ghost use Rattle.ledger.specs.Entries.{word_at, entry_of, Reads, terms_of, prices_of, day_named, process_only, wishes, company_sells, writer_takes};

use crate::refusals::Refusal;
use tariff::amounts::Dth;
use tariff::bill::Prices;
use tariff::dates::Date;
use tariff::months::Month;
use tariff::terms::Terms;

#[derive(Clone, Copy, PartialEq, Eq, Debug)]
pub struct Entry {
    // Kind and flags are numbers, as any byte may stand there; Kind has the names of those that are kinds.
    pub kind: u64,
    pub a: usize,
    pub b: usize,
    pub flags: u64,
    pub date: Date,
    // Six names and no array, as the definitions of forms and kinds name them.
    pub w1: u64,
    pub w2: u64,
    pub w3: u64,
    pub w4: u64,
    pub w5: u64,
    pub w6: u64,
}

// Of 32 bytes. The archive reads its words from a slice of any length.
#[tactic(auto, unfolding(crate::specs::Entries::word_at, crate::specs::Entries::byte_at))]
fn word(bytes: &[u8; 32], at: usize) -> u64
    requires { at + 4 ≤ 32 }
    ensures { result ≡ word_at bytes.now at }
{
    let four = [bytes[at], bytes[at + 1], bytes[at + 2], bytes[at + 3]];
    u64::from(u32::from_le_bytes(four))
}

#[tactic(auto, unfolding(crate::specs::Entries::entry_of, crate::specs::Entries::half_at, crate::specs::Entries::byte_at))]
fn date(bytes: &[u8; 32]) -> Date
    ensures { result ≡ (entry_of bytes.now).date }
{
    let year = u16::from_le_bytes([bytes[4], bytes[5]]);
    Date {
        year: u64::from(year),
        month: Month(u64::from(bytes[6])),
        day: u64::from(bytes[7]),
    }
}

#[tactic(auto, unfolding(crate::specs::Entries::entry_of, crate::specs::Entries::byte_at))]
fn decode(bytes: &[u8; 32]) -> Entry
    ensures { result ≡ entry_of bytes.now }
{
    let date = date(bytes);
    let w1 = word(bytes, 8);
    let w2 = word(bytes, 12);
    let w3 = word(bytes, 16);
    let w4 = word(bytes, 20);
    let w5 = word(bytes, 24);
    let w6 = word(bytes, 28);
    Entry {
        kind: u64::from(bytes[0]),
        a: usize::from(bytes[1]),
        b: usize::from(bytes[2]),
        flags: u64::from(bytes[3]),
        date,
        w1,
        w2,
        w3,
        w4,
        w5,
        w6,
    }
}

impl TryFrom<&[u8]> for Entry {
    type Error = Refusal;

    ghost try_from_gives = { λ b r. Reads b.now r };

    fn try_from(bytes: &[u8]) -> Result<Self, Refusal> {
        match <&[u8; 32]>::try_from(bytes) {
            Ok(whole) => Ok(decode(whole)),
            Err(_) => Err(Refusal::WrongLength),
        }
    }
}

impl Entry {
    #[tactic(auto, unfolding(crate::specs::Entries::terms_of))]
    pub fn terms(self) -> Terms
        ensures { result ≡ terms_of self }
    {
        Terms {
            no_notice: Dth(self.w1),
            design_day: Dth(self.w2),
            storage: Dth(self.w3),
            retainage: self.w4,
            demand_rate: self.w5,
            commodity_rate: self.w6,
        }
    }

    #[tactic(auto, unfolding(crate::specs::Entries::prices_of))]
    pub fn prices(self) -> Prices
        ensures { result ≡ prices_of self }
    {
        Prices {
            inventory: self.w1,
            highest: self.w2,
            lowest: self.w3,
            pipeline: self.w4,
        }
    }

    // The date that a HOLIDAY names.
    #[tactic(auto, unfolding(crate::specs::Entries::day_named))]
    pub fn day_named(self) -> Date
        ensures { result ≡ day_named self }
    {
        Date {
            year: self.w1,
            month: Month(self.w2),
            day: self.w3,
        }
    }

    #[tactic(auto, unfolding(crate::specs::Entries::process_only))]
    pub fn process_only(self) -> bool
        ensures { result ≡ process_only self }
    {
        self.flags % 2 == 1
    }

    #[tactic(auto, unfolding(crate::specs::Entries::wishes))]
    pub fn wishes(self) -> bool
        ensures { result ≡ wishes self }
    {
        2 <= self.flags
    }

    #[tactic(auto, unfolding(crate::specs::Entries::company_sells))]
    pub fn company_sells(self) -> bool
        ensures { result ≡ company_sells self }
    {
        self.flags == 0
    }

    #[tactic(auto, unfolding(crate::specs::Entries::writer_takes))]
    pub fn writer_takes(self) -> bool
        ensures { result ≡ writer_takes self }
    {
        self.flags != 0
    }
}
