// What every posting is asked, whatever its kind.
ghost use Rattle.std.specs.Prelude.{◌≡◌};
ghost use Rattle.tariff.specs.Holidays.{held_dates};
ghost use Rattle.ledger.specs.Admitted.{Admits, Judges};
ghost use Rattle.ledger.specs.Days.{retired, wrong_day};
ghost use Rattle.ledger.specs.Posting.{admission};

use crate::admitted::Admitted;
use crate::entries::Entry;
use crate::forms::check;
use crate::kinds::Kind;
use crate::refusals::Refusal;
use crate::state::Ledger;
use tariff::dates::Date;
use tariff::holidays::Holidays;
use tariff::months::Month;

// Number 23.
#[tactic(auto, unfolding(crate::specs::Days::wrong_day, crate::specs::Kinds::lookup, crate::specs::Kinds::code))]
fn wrong_day(touched: bool, held: &Holidays, e: Admitted) -> bool
    ensures { result ≡ wrong_day touched (held_dates held.now) e.entry }
{
    let date = e.entry.date;
    match e.kind {
        Kind::Terms => !date.first_of_gas_year() | touched,
        Kind::Enrol => !date.first_of_gas_year(),
        Kind::Measure => !held.measured(e.date()),
        Kind::CloseDay => e.date().last_of_month() | date.last_date(),
        Kind::CloseMonth => !e.date().last_of_month() | date.last_date(),
        Kind::Confiscated => !date.on_confiscation_day(),
        Kind::Deliver | Kind::Transfer | Kind::Trade | Kind::Usage | Kind::Holiday | Kind::Notice =>
            false,
    }
}

// Number 36.
#[tactic(auto, unfolding(crate::specs::Days::retired, crate::specs::Kinds::code))]
fn retired(is_new: bool, e: Admitted) -> bool
    ensures { result ≡ retired is_new e.entry }
{
    let letters_alone = Date {
        year: 2027,
        month: Month::APRIL,
        day: 1,
    };
    match e.kind {
        Kind::Transfer => is_new & !(e.entry.date < letters_alone),
        _ => false,
    }
}

// By itself, of the ledger, and of the day.
#[tactic(auto, using(crate::proofs::Admissions::admission_own, crate::proofs::Admissions::admission_standing), unfolding(crate::specs::Refusals::number, crate::specs::Posting::standing_checks, crate::specs::Checks::verdict, crate::specs::State::held_in))]
pub fn admission(ledger: &Ledger, entry: Entry) -> Result<Admitted, Refusal>
    ensures { Admits result entry (admission ledger.now entry) }
{
    let e = check(ledger.is_new, entry)?;
    if !ledger.in_range() {
        return Err(Refusal::LedgerOutOfRange);
    }
    if !ledger.begun & (e.kind != Kind::Terms) {
        return Err(Refusal::NotBegun);
    }
    if ledger.begun & !(entry.date == ledger.date) {
        return Err(Refusal::OtherDay);
    }
    if retired(ledger.is_new, e) {
        return Err(Refusal::Retired);
    }
    if wrong_day(ledger.touched, &ledger.holidays, e) {
        return Err(Refusal::WrongDay);
    }
    Ok(e)
}

// Bytes of any length.
#[tactic(auto, using(crate::proofs::OneAccount::posted_otherwise, crate::proofs::OneAccount::judged), unfolding(crate::specs::Refusals::number))]
pub fn admit(ledger: &Ledger, bytes: &[u8]) -> Result<Admitted, Refusal>
    ensures { Judges result ledger.now bytes.now }
{
    let entry = Entry::try_from(bytes)?;
    admission(ledger, entry)
}
