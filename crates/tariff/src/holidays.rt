// The days that are named as holidays, and the day of a month on which meters are read.
ghost use Rattle.std.specs.Prelude.{◌≡◌, true, ◌&&◌, List, [], ◌∷◌, ◌++◌, ◌<◌, ◌≤◌, length, min, unwrap_or, IfSome};
ghost use Rattle.tariff.specs.Dates.{real};
ghost use Rattle.tariff.specs.Holidays.{held_dates, stored_dates, named, business_day, measurement_day, on_measurement_day, leaves_one, holidays_in_range, kept_from};
ghost use Rattle.tariff.specs.declared.dates.Date as declared;

use crate::dates::{CalendarDay, CalendarMonth, Date};
use crate::ranged::InRange;

// C lends it as it is, with a count beside sixteen places: the first `count` of them are taken, in the order of posting.
#[repr(C)]
#[derive(Clone, Copy, PartialEq, Eq, Default, Debug)]
pub struct Holidays {
    pub count: u64,
    pub dates: [Date; 16],
}

// Three functions stand in the image once each, not once in every caller: that keeps it small (docs/DECISIONS.md, 168).
impl Holidays {
    // The default, told as the empty list stored: callers above do not open what that is.
    #[tactic(auto, unfolding(crate::specs::Holidays::stored_dates))]
    pub fn none() -> Holidays
        ensures { result ≡ stored_dates [] }
    {
        Holidays::default()
    }

    // The dates held. A count above sixteen is out of range and counts no more places than there are. A cast: no From, and a TryFrom would need an arm for what cannot come.
    #[tactic(auto, unfolding(crate::specs::Holidays::held_dates), using(crate::proofs::HeldDates::held_places))]
    fn held(&self) -> &[Date]
        ensures value { result.now ≡ held_dates self.now }
        ensures counted { length result.now ≡ min self.now.count 16 }
    {
        &self.dates[..self.count.min(16) as usize]
    }

    #[inline(never)]
    #[tactic(auto, using(crate::proofs::HeldDates::named_any))]
    pub fn names(&self, d: Date) -> bool
        ensures { result ≡ named (held_dates self.now) d }
    {
        self.held().iter().any(|h| *h == d)
    }

    // Monday to Friday, and none of them.
    #[tactic(auto, unfolding(crate::specs::Holidays::business_day))]
    fn business_day(&self, day: CalendarDay) -> bool
        ensures { result ≡ business_day (held_dates self.now) day.date }
    {
        day.weekday() < 5 && !self.names(day.date)
    }

    // The first business day from the 25th on, where the month has one left.
    #[inline(never)]
    pub fn measured_on(&self, month: CalendarMonth) -> Option<u64>
        ensures day { unwrap_or result 0 ≡ measurement_day (held_dates self.now) month.year month.month }
        ensures late { IfSome result (λ day. 25 ≤ day) }
    {
        (25..month.length() + 1).find(|day| self.business_day(month.day(*day)))
    }

    // Meters are read on this date.
    #[tactic(auto, using(crate::proofs::Calendar::real_day), unfolding(crate::specs::Holidays::on_measurement_day))]
    pub fn measured(&self, d: InRange<Date>) -> bool
        ensures { result ≡ on_measurement_day (held_dates self.now) d.value }
    {
        let date = d.get();
        self.measured_on(d.month())
            .is_some_and(|day| day == date.day)
    }

    // The month of this date has a day left to read meters on.
    #[tactic(auto, unfolding(crate::specs::Holidays::leaves_one))]
    pub fn leaves_day(&self, d: InRange<Date>) -> bool
        ensures { result ≡ leaves_one (held_dates self.now) d.value }
    {
        self.measured_on(d.month()).is_some()
    }

    // The date exists, and its month has a day left to read meters on.
    fn fits(&self, d: Date) -> bool
        ensures { result ≡ (real d && leaves_one (held_dates self.now) d) }
    {
        InRange::checked(d).is_some_and(|d| self.leaves_day(d))
    }

    #[tactic(auto, unfolding(crate::specs::Holidays::holidays_in_range))]
    pub fn in_range(&self) -> bool
        ensures { result ≡ holidays_in_range self.now }
    {
        self.count <= 16 && self.held().iter().all(|d| self.fits(*d))
    }

    // One more date in the next place, where the others are stored in theirs.
    #[tactic(auto, using(crate::proofs::HeldDates::stored_next))]
    fn push(&mut self, d: Date)
        requires { self.old.count < 16 }
        ensures { (hs : List declared.Date) → self.old ≡ stored_dates hs → self.new ≡ stored_dates (hs ++ d ∷ []) }
    {
        let i = self.held().len();
        self.dates[i] = d;
        self.count += 1;
    }

    // With one more, stored anew.
    #[inline(never)]
    #[tactic(auto, using(crate::proofs::HeldDates::stored_all))]
    pub fn naming(&self, d: Date) -> Holidays
        requires { self.now.count < 16 }
        ensures { result ≡ stored_dates (held_dates self.now ++ d ∷ []) }
    {
        // No date lies before the default one.
        let mut next = self.kept_from(Date::default());
        next.push(d);
        next
    }

    // Without those before a date, stored anew.
    #[tactic(auto, using(crate::proofs::Calendar::before_derived, crate::proofs::HeldDates::none_from, crate::proofs::HeldDates::gone_next, crate::proofs::HeldDates::kept_next, crate::proofs::HeldDates::room_kept))]
    pub fn kept_from(&self, first: Date) -> Holidays
        ensures { result ≡ stored_dates (kept_from first (held_dates self.now)) }
    {
        let mut next = Holidays::none();
        for h in self.held() {
            if !(*h < first) {
                next.push(*h);
            }
        }
        next
    }
}
