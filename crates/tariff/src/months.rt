// A month, of which the rider's percentages are asked. Tables run from April to March, as the gas year does.
ghost use Rattle.std.specs.Prelude.{◌≡◌, ◌<◌, get_or};
ghost use Rattle.tariff.specs.Months.{gas_month, winter, minimum, maximum, mmbq, withdrawal_maximum, withdrawal_minimum};

use crate::limits::Percent;

// By its number in the calendar year: a number and no enum, as C hands in any. Other numbers than 1 to 12 are no date's month.
#[repr(C)]
#[derive(Clone, Copy, PartialEq, Eq, PartialOrd, Ord, Default, Debug)]
pub struct Month(pub u64);

// Percentages are bytes in arrays, as the compiler writes a table out wherever it is used and firmware has no heap.
const MINIMUM: [u8; 12] = [0, 0, 14, 34, 54, 75, 88, 95, 78, 59, 36, 18];

const MAXIMUM: [u8; 12] = [25, 60, 60, 60, 85, 85, 98, 98, 98, 98, 65, 45];

const MMBQ: [u8; 12] = [15, 20, 20, 20, 20, 13, 7, 5, 10, 10, 10, 10];

const WITHDRAWAL_MAXIMUM: [u8; 12] = [0, 0, 0, 0, 0, 0, 0, 40, 40, 40, 30, 20];

const WITHDRAWAL_MINIMUM: [u8; 12] = [0, 0, 0, 0, 0, 0, 0, 0, 0, 0, 10, 10];

impl Month {
    pub const JANUARY: Month = Month(1);

    pub const FEBRUARY: Month = Month(2);

    pub const MARCH: Month = Month(3);

    pub const APRIL: Month = Month(4);

    pub const JUNE: Month = Month(6);

    pub const AUGUST: Month = Month(8);

    pub const NOVEMBER: Month = Month(11);

    pub const DECEMBER: Month = Month(12);

    // The place in the gas year, April 0 to March 11. A cast: no From, and a TryFrom would need an arm for what cannot come.
    #[tactic(auto, unfolding(crate::specs::Months::gas_month))]
    pub fn gas_month(self) -> usize
        ensures { (result ≡ gas_month self) × (result < 12) }
    {
        ((self.0 % 12 + 8) % 12) as usize
    }

    // What a table of the gas year has for this month.
    fn percent_in(self, table: [u8; 12]) -> u64
        ensures { result ≡ get_or table (gas_month self) 0 }
    {
        u64::from(table[self.gas_month()])
    }

    // November to March.
    #[tactic(auto, unfolding(crate::specs::Months::winter))]
    pub fn winter(self) -> bool
        ensures { result ≡ winter self }
    {
        7 <= self.gas_month()
    }

    // The least bank, in percent of the BCQ, as are the four that follow: five names over `percent_in`, as each table has a definition and a law of its own.
    #[tactic(auto, unfolding(crate::specs::Months::minimum), using(crate::proofs::Percentages::minimum_le))]
    pub fn least_bank(self) -> Percent
        ensures { result.hundredths ≡ minimum self }
    {
        Percent::of(self.percent_in(MINIMUM))
    }

    #[tactic(auto, unfolding(crate::specs::Months::maximum), using(crate::proofs::Percentages::maximum_le))]
    pub fn largest_bank(self) -> Percent
        ensures { result.hundredths ≡ maximum self }
    {
        Percent::of(self.percent_in(MAXIMUM))
    }

    // The most that a month may add to a bank.
    #[tactic(auto, unfolding(crate::specs::Months::mmbq), using(crate::proofs::Percentages::mmbq_le))]
    pub fn most_added(self) -> Percent
        ensures { result.hundredths ≡ mmbq self }
    {
        Percent::of(self.percent_in(MMBQ))
    }

    // The most that a month may take from a bank, November to March.
    #[tactic(auto, unfolding(crate::specs::Months::withdrawal_maximum), using(crate::proofs::Percentages::withdrawal_maximum_le))]
    pub fn most_withdrawn(self) -> Percent
        ensures { result.hundredths ≡ withdrawal_maximum self }
    {
        Percent::of(self.percent_in(WITHDRAWAL_MAXIMUM))
    }

    // The least that February and March must take from a bank.
    #[tactic(auto, unfolding(crate::specs::Months::withdrawal_minimum), using(crate::proofs::Percentages::withdrawal_minimum_le))]
    pub fn least_withdrawn(self) -> Percent
        ensures { result.hundredths ≡ withdrawal_minimum self }
    {
        Percent::of(self.percent_in(WITHDRAWAL_MINIMUM))
    }
}
