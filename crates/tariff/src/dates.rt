// Dates of 2000 to 2099.
ghost use Rattle.std.specs.Prelude.{◌≡◌, ◌↔◌, true, cond, nat_lt, ◌<◌, ◌≤◌, IsSome, IfSome};
ghost use Rattle.tariff.specs.Dates.{leap, month_length, real, is_on, first_of_gas_year, confiscation_day, last_of_month, last_date, day_after, day_number, weekday};
ghost use Rattle.tariff.specs.Holidays.{date_of};
ghost use Rattle.tariff.specs.MeasurementDays.{MonthExists};

use crate::months::Month;
use crate::ranged::{InRange, Ranged};

#[repr(C)]
#[derive(Clone, Copy, PartialEq, Eq, PartialOrd, Ord, Default, Debug)]
pub struct Date {
    pub year: u64,
    pub month: Month,
    pub day: u64,
}

// Every fourth year: of these hundred years, only 2000 is a full century, and it was a leap year.
#[tactic(auto, using(crate::proofs::Calendar::every_fourth))]
fn leap(year: u64) -> bool
    requires { (2000 ≤ year) × (year ≤ 2099) }
    ensures { result ≡ leap year }
{
    year % 4 == 0
}

// A month of these hundred years.
#[derive(Clone, Copy, PartialEq, Eq, PartialOrd, Ord, Debug)]
pub struct CalendarMonth {
    pub year: u64,
    pub month: Month,
    ghost exists: { MonthExists year month },
}

// A range of two values together, so no InRange of one.
impl CalendarMonth {
    pub fn of(year: u64, month: Month) -> CalendarMonth
        requires { MonthExists year month }
        ensures { (result.year ≡ year) × (result.month ≡ month) }
    {
        CalendarMonth { year, month }
    }

    pub fn checked(year: u64, month: Month) -> Option<CalendarMonth>
        ensures some { IfSome result (λ m. (m.year ≡ year) × (m.month ≡ month)) }
        ensures variant { IsSome result ↔ MonthExists year month }
    {
        if (2000..=2099).contains(&year) && (1..=12).contains(&month.0) {
            Some(CalendarMonth { year, month })
        } else {
            None
        }
    }

    // Worked out and not looked up: 31 and 30 days by turns, anew from August on, and February by itself. No test of months in branches, and not inlined: the
    // compiler would repeat them for each caller, and from some it makes the table that is not to be kept (docs/DECISIONS.md, 124).
    #[inline(never)]
    #[tactic(auto, using(crate::proofs::Calendar::worked_out, crate::proofs::Calendar::month_length_le))]
    pub fn length(self) -> u64
        ensures value { result ≡ month_length self.year self.month }
        ensures bounded { result ≤ 31 }
    {
        let m = self.month.0;
        let february = if leap(self.year) { 29 } else { 28 };
        let by_turns = 30 + (m + m / 8) % 2;
        if m == 2 { february } else { by_turns }
    }

    // A day of this month; one past its end counts on, as if the month had 31.
    pub fn day(self, day: u64) -> CalendarDay
        requires { (1 ≤ day) × (day ≤ 31) }
        ensures { result.date ≡ date_of self.year self.month day }
    {
        CalendarDay {
            date: self.date(day),
        }
    }

    // The date of that number in this month, whether the month is that long or not.
    pub fn date(self, day: u64) -> Date
        ensures { result ≡ date_of self.year self.month day }
    {
        Date {
            year: self.year,
            month: self.month,
            day,
        }
    }
}

// In range where it exists.
impl Ranged for Date {
    ghost ranged = { real };

    #[tactic(auto, unfolding(crate::specs::Dates::real))]
    fn in_range(self) -> bool {
        match CalendarMonth::checked(self.year, self.month) {
            Some(month) => (1 <= self.day) & (self.day <= month.length()),
            None => false,
        }
    }
}

impl InRange<Date> {
    // The month of a date that exists.
    #[tactic(auto, using(crate::proofs::Calendar::real_exists))]
    pub fn month(self) -> CalendarMonth
        ensures { (result.year ≡ self.value.year) × (result.month ≡ self.value.month) }
    {
        let date = self.get();
        CalendarMonth {
            year: date.year,
            month: date.month,
        }
    }

    #[tactic(auto, unfolding(crate::specs::Dates::last_of_month))]
    pub fn last_of_month(self) -> bool
        ensures { result ≡ last_of_month self.value }
    {
        self.get().day == self.month().length()
    }

    #[tactic(auto, using(crate::proofs::Calendar::real_exists, crate::proofs::Calendar::real_day), unfolding(crate::specs::Dates::day_after, crate::specs::Months::same_month, crate::specs::Months::december))]
    pub fn day_after(self) -> Date
        ensures { result ≡ day_after self.value }
    {
        let date = self.get();
        if !self.last_of_month() {
            return Date {
                day: date.day + 1,
                ..date
            };
        }
        let (year, month) = if date.month == Month::DECEMBER {
            (date.year + 1, Month::JANUARY)
        } else {
            (date.year, Month(date.month.0 + 1))
        };
        Date {
            year,
            month,
            day: 1,
        }
    }
}

impl Date {
    // This day of that month, in any year.
    #[tactic(auto, unfolding(crate::specs::Dates::is_on, crate::specs::Months::same_month))]
    pub fn is_on(self, month: Month, day: u64) -> bool
        ensures { result ≡ is_on month day self }
    {
        (self.month == month) & (self.day == day)
    }

    // April 1.
    #[tactic(auto, unfolding(crate::specs::Dates::first_of_gas_year, crate::specs::Months::april))]
    pub fn first_of_gas_year(self) -> bool
        ensures { result ≡ first_of_gas_year self }
    {
        self.is_on(Month::APRIL, 1)
    }

    // January 31 and March 31.
    #[tactic(auto, unfolding(crate::specs::Dates::confiscation_day, crate::specs::Months::january, crate::specs::Months::march))]
    pub fn on_confiscation_day(self) -> bool
        ensures { result ≡ confiscation_day self }
    {
        let in_january = self.is_on(Month::JANUARY, 31);
        let in_march = self.is_on(Month::MARCH, 31);
        in_january | in_march
    }

    // 31 December 2099, after which there is no date.
    #[tactic(auto, unfolding(crate::specs::Dates::last_date, crate::specs::Months::december))]
    pub fn last_date(self) -> bool
        ensures { result ≡ last_date self }
    {
        let new_years_eve = self.is_on(Month::DECEMBER, 31);
        (self.year == 2099) & new_years_eve
    }
}

// A day of such a month, from 1 to 31.
#[derive(Clone, Copy, PartialEq, Eq, PartialOrd, Ord, Debug)]
pub struct CalendarDay {
    pub date: Date,
    ghost exists: { MonthExists date.year date.month },
    ghost in_days: { (1 ≤ date.day) × (date.day ≤ 31) },
}

impl CalendarDay {
    // What February lacks of 30 days, once it is past.
    fn lacking(self) -> u64
        ensures { result ≡ cond (nat_lt 2 self.date.month.0) (cond (leap self.date.year) 1 2) 0 }
    {
        if self.date.month.0 <= 2 {
            0
        } else if leap(self.date.year) {
            1
        } else {
            2
        }
    }

    // Days since 1 January 2000. (367m − 362) / 12 counts the days before month m as if February had 30.
    #[tactic(auto, using(crate::proofs::Calendar::days_before, crate::proofs::Calendar::short_le), unfolding(crate::specs::Dates::day_number))]
    fn number(self) -> u64
        ensures { (result ≡ day_number self.date) × (result < 40000) }
    {
        let year = self.date.year;
        let m = self.date.month.0;
        let years = year - 2000;
        let months = (367 * m - 362) / 12 - self.lacking();
        365 * years + (years + 3) / 4 + months + (self.date.day - 1)
    }

    // Monday 0 to Sunday 6. A number, as a business day is one below 5.
    #[tactic(auto, unfolding(crate::specs::Dates::weekday))]
    pub fn weekday(self) -> u64
        ensures { result ≡ weekday self.date }
    {
        (self.number() + 5) % 7
    }
}
