// HOLIDAY.
ghost use Rattle.std.specs.Prelude.{◌≡◌};
ghost use Rattle.ledger.specs.Answers.{refused};
ghost use Rattle.ledger.specs.Refusals.{number_of};
ghost use Rattle.ledger.specs.Holiday.{Names, post_holiday};

use crate::entries::Entry;
use crate::refusals::Refusal;
use crate::state::Ledger;
use tariff::dates::Date;
use tariff::holidays::Holidays;
use tariff::ranged::InRange;

// The holidays with one more, stored anew.
#[tactic(auto, using(tariff::proofs::HeldDates::held_stored, tariff::proofs::Calendar::before_derived), unfolding(crate::specs::Holiday::holiday_checks, crate::specs::State::held_in, crate::specs::Checks::verdict, crate::specs::Refusals::number))]
fn named(l: &Ledger, d: Date) -> Result<Holidays, Refusal>
    ensures { Names result l.now d }
{
    let day = match InRange::checked(d) {
        Some(day) if l.date < d => day,
        _ => return Err(Refusal::PassedHoliday),
    };
    if (16 <= l.holidays.count) | l.holidays.names(d) {
        return Err(Refusal::HolidayNamed);
    }
    let next = l.holidays.naming(d);
    if !next.leaves_day(day) {
        return Err(Refusal::NoDayLeft);
    }
    Ok(next)
}

#[tactic(auto, using(crate::proofs::Refused::refuses), unfolding(crate::specs::Holiday::post_holiday, crate::specs::Holiday::holding, crate::specs::State::with_holidays, crate::specs::Answers::settle, crate::specs::Answers::refused))]
pub fn post_holiday(l: &mut Ledger, e: Entry) -> Result<(), Refusal>
    ensures { refused l.new (number_of result) ≡ post_holiday l.old e }
{
    l.holidays = named(l, e.day_named())?;
    l.touched = true;
    Ok(())
}
