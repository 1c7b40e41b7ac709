// The bank ledger: postings of twelve kinds, and the panel.
#![tactic(auto)]

mod admission;
mod admitted;
mod answers;
mod changes;
mod closing;
mod closings;
mod confiscated;
mod deliver;
mod enrol;
mod entries;
mod forms;
mod gas;
mod holiday;
mod kinds;
mod measure;
mod notice;
mod panels;
mod postings;
mod ranges;
mod refusals;
mod state;
mod terms;
mod trade;
mod transfer;
mod usage;

ghost use Rattle.std.specs.Prelude.{◌≡◌};
ghost use Rattle.ledger.specs.Forms.{form_number};
ghost use Rattle.ledger.specs.Refusals.{Unless};
ghost use Rattle.ledger.specs.State.{fresh};
ghost use Rattle.ledger.specs.Posting.{posted};
ghost use Rattle.ledger.specs.Panel.{bank_of, panel_of};
ghost use Rattle.ledger.specs.OldAndNew.{KeepsWhich, NineKinds, StaysAsBefore, StaysUnnamed, StaysUnlettered, RetiredOnly, RefusesTooLate, ForfeitsByRule, ReportsAlike, AcceptsAlike, AlikeOtherwise};
ghost use Rattle.ledger.specs.Measuring.{measurement_day_in, StaysInRange, EveryMonthMeasured, PlacesStay, StoredAnew, DropsPassed, KeepsOrder, HoldsIt, SameToday, MovesMeasuring};
ghost use Rattle.ledger.specs.Letters.{PairIsTransfer, NeverOutOfRange, NoGasAlone, SameSide};
ghost use Rattle.ledger.specs.ConfiscatedCases.{ConfiscatedCases};
ghost use Rattle.ledger.specs.HolidayCases.{HolidayCases};
ghost use Rattle.ledger.specs.NoticeCases.{NoticeCases};
ghost use Rattle.ledger.specs.MarkedCases.{MarkedCases};

use crate::admission::admit;
use crate::entries::Entry;
use crate::forms::checked_kind;
use crate::panels::{figure, open_bank};
use crate::postings::post_admitted;
use crate::state::in_one_piece;
use tariff::amounts::Units;
use tariff::dates::{CalendarMonth, Date};
use tariff::holidays::Holidays;
use tariff::months::Month;
use tariff::terms::Terms;

// The types that cross the boundary; the functions that do stand below, and none of them requires anything.
pub use answers::{Answer, Posted, Report};
pub use forms::some_units;
pub use panels::Panel;
pub use refusals::Refusal;
pub use state::{Account, Ledger, Notice, ThisMonth, Today};

// A ledger with no terms, no date and no open account, told whether it is old or new.
#[tactic(auto, unfolding(crate::specs::State::fresh, crate::specs::State::nobody, crate::specs::State::no_today, crate::specs::State::no_month, crate::specs::State::no_totals))]
pub fn fresh(is_new: bool) -> Ledger
    ensures { result ≡ fresh is_new }
{
    let nobody = in_one_piece(Account::default(), is_new);
    Ledger {
        begun: false,
        touched: false,
        is_new,
        date: Date::default(),
        terms: Terms::default(),
        holidays: Holidays::none(),
        accounts: [nobody; 16],
    }
}

// What is wrong with bytes by themselves, in an old list or in a new one: the first of 1 to 7 that applies.
#[tactic(auto, unfolding(crate::specs::Refusals::number, crate::specs::Forms::form_number))]
pub fn check_entry(is_new: bool, entry: &[u8]) -> Result<(), Refusal>
    ensures { Unless result (form_number is_new entry.now) }
{
    checked_kind(is_new, &Entry::try_from(entry)?)?;
    Ok(())
}

// Its number for C, or 0.
pub fn entry_number(is_new: bool, entry: &[u8]) -> u64
    ensures { result ≡ form_number is_new entry.now }
{
    check_entry(is_new, entry).err().map_or(0, u64::from)
}

// Any bytes, to any ledger.
pub fn post(mut ledger: Ledger, entry: &[u8]) -> Posted
    ensures { result ≡ posted ledger entry.now }
{
    let answer = accept(&mut ledger, entry);
    Posted { answer, ledger }
}

// For a caller who keeps one ledger in its own storage: what `post` returns takes the ledger's place there, so that no old copy is left to post to.
// Both have one definition, `posted`; so `history::every_history` speaks of a list of these too.
#[inline(never)]
pub fn post_in(ledger: &mut Ledger, entry: &[u8]) -> Answer
    ensures answer { result ≡ (posted ledger.old entry.now).answer }
    ensures stored { ledger.new ≡ (posted ledger.old entry.now).ledger }
{
    let p = post(*ledger, entry);
    *ledger = p.ledger;
    p.answer
}

// The ledger is large, and a function that it is passed to by value copies it: so what an accepted posting changes is changed in place.
#[inline(never)]
#[tactic(auto, using(crate::proofs::OneAccount::posted_admitted), unfolding(crate::specs::Answers::refused, crate::specs::Answers::plain))]
fn accept(ledger: &mut Ledger, entry: &[u8]) -> Answer
    ensures { record { answer = result; ledger = ledger.new } ≡ posted ledger.old entry.now }
{
    match admit(ledger, entry) {
        Ok(e) => post_admitted(ledger, e),
        Err(refusal) => Answer::from(Err(refusal)),
    }
}

// The figure that suppliers trade by, or 20 on a ledger out of range.
#[tactic(auto, unfolding(crate::specs::Panel::panel_of, crate::specs::Refusals::number))]
pub fn panel(ledger: Ledger) -> Panel
    ensures { result ≡ panel_of ledger }
{
    Panel::from(figure(&ledger))
}

// The day of a month on which MEASURE is posted, as C gets it: 0 on a ledger out of range, or where the calendar has no such month.
#[tactic(auto, unfolding(crate::specs::Measuring::measurement_day_in, crate::specs::Measuring::has_month, crate::specs::State::held_in))]
pub fn measurement_day(ledger: Ledger, year: u64, month: u64) -> u64
    ensures { result ≡ measurement_day_in ledger year month }
{
    match CalendarMonth::checked(year, Month(month)) {
        Some(month) if ledger.in_range() => ledger.holidays.measured_on(month).unwrap_or(0),
        _ => 0,
    }
}

// An account's bank; 0 where it is not open, or where there is no such account. 0 and no Option: it is a cell of the year sheet.
pub fn bank(ledger: Ledger, account: usize) -> Units
    ensures { result.0 ≡ bank_of ledger account }
{
    match ledger.accounts.get(account) {
        Some(a) => open_bank(*a),
        None => Units(0),
    }
}

// R84 to R88, R111 and R112: specs/OldAndNew.antt has each claim in words.
pub fn old_stays_old()
    ensures kept { KeepsWhich }
    ensures nine_kinds { NineKinds }
    ensures as_before { StaysAsBefore }
    ensures unnamed { StaysUnnamed }
    ensures unlettered { StaysUnlettered }
    ensures retires { RetiredOnly }
    ensures refuses { RefusesTooLate }
    ensures forfeits { ForfeitsByRule }
    ensures reports { ReportsAlike }
    ensures accepts { AcceptsAlike }
    ensures alike { AlikeOtherwise }
{}

// R101, R102 and R104 to R106: specs/Measuring.antt has each claim in words.
pub fn measuring_days()
    ensures in_range { StaysInRange }
    ensures every_month { EveryMonthMeasured }
    ensures places { PlacesStay }
    ensures anew { StoredAnew }
    ensures drops { DropsPassed }
    ensures order { KeepsOrder }
    ensures holds { HoldsIt }
    ensures same_today { SameToday }
    ensures moves { MovesMeasuring }
{}

// R114 and R115: specs/Letters.antt has each claim in words.
pub fn letters()
    ensures pair { PairIsTransfer }
    ensures in_range { NeverOutOfRange }
    ensures alone { NoGasAlone }
    ensures same_side { SameSide }
{}

// R85 and R86: cases of confiscated gas hold of ledgers as January and March end, as one group.
pub fn confiscated_cases()
    ensures { ConfiscatedCases }
{}

// R107: cases of holidays hold of ledgers at days of December, March and others, as one group.
pub fn holiday_cases()
    ensures { HolidayCases }
{}

// R116: cases of letters hold of ledgers in June and about 1 April 2027, as one group.
pub fn notice_cases()
    ensures { NoticeCases }
{}

// R67: cases worked out in advance hold of postings to an old fresh ledger, as one group.
pub fn marked_cases()
    ensures { MarkedCases }
{}
