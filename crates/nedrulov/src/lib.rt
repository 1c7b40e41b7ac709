// The door for firmware: what a C or Rust program links. Every function answers every input, keeps no state,
// and writes only to what the caller lends it. C has no Option and no Result, so numbers and zeros stand in these signatures; inside, they are enums.
#![tactic(auto)]

mod cells;

ghost use Rattle.std.specs.Prelude.{◌≡◌, cond, ltb, length};
ghost use Rattle.ledger.specs.State.{fresh};
ghost use Rattle.ledger.specs.Forms.{form_number};
ghost use Rattle.ledger.specs.Posting.{posted};
ghost use Rattle.ledger.specs.Panel.{panel_of};
ghost use Rattle.ledger.specs.Measuring.{measurement_day_in};
ghost use Rattle.archive.specs.Writing.{written, output_after};
ghost use Rattle.archive.specs.Reading.{is_new, checked, place_of};
ghost use Rattle.archive.specs.Replay.{figures_of};
ghost use Rattle.archive.specs.YearSheet.{sheet_of};
ghost use Rattle.backcast.specs.Answers.{back_cast};
ghost use Rattle.partners.specs.Listing.{partners_of};
ghost use Rattle.nedrulov.specs.Cells.{cells_after};
ghost use Rattle.nedrulov.specs.Amounts.{delivery_amount};
ghost use Rattle.nedrulov.specs.Limits.{band_of};

use crate::cells::put_sheet;
use archive::{Checked, Figures, Place, Written};
use backcast::{BackCast, LoadCurve};
use ledger::{Answer, Ledger, Panel, Posted};
use partners::PartnerList;
use tariff::amounts::{Dth, Quantity};
use tariff::delivery::Delivery;
use tariff::limits::Limits;
use tariff::months::Month;

// The least and the largest bank of a month, in units.
#[repr(C)]
#[derive(Clone, Copy, PartialEq, Eq, Default, Debug)]
pub struct Band {
    pub minimum: u64,
    pub maximum: u64,
}

#[unsafe(no_mangle)]
pub extern "C" fn nedrulov_fresh(is_new: bool) -> Ledger
    ensures { result ≡ fresh is_new }
{
    ledger::fresh(is_new)
}

#[unsafe(no_mangle)]
pub extern "C" fn nedrulov_entry_number(is_new: bool, entry: &[u8]) -> u64
    ensures { result ≡ form_number is_new entry.now }
{
    ledger::entry_number(is_new, entry)
}

#[unsafe(no_mangle)]
pub extern "C" fn nedrulov_post(ledger: &mut Ledger, entry: &[u8]) -> Answer
    ensures answer { result ≡ (posted ledger.old entry.now).answer }
    ensures stored { ledger.new ≡ (posted ledger.old entry.now).ledger }
{
    ledger::post_in(ledger, entry)
}

#[unsafe(no_mangle)]
pub extern "C" fn nedrulov_post_by_value(ledger: Ledger, entry: &[u8]) -> Posted
    ensures { result ≡ posted ledger entry.now }
{
    ledger::post(ledger, entry)
}

#[unsafe(no_mangle)]
pub extern "C" fn nedrulov_panel(ledger: Ledger) -> Panel
    ensures { result ≡ panel_of ledger }
{
    ledger::panel(ledger)
}

// The day of a month on which MEASURE is posted, by the holidays that the ledger holds.
#[unsafe(no_mangle)]
pub extern "C" fn nedrulov_measurement_day(ledger: Ledger, year: u64, month: u64) -> u64
    ensures { result ≡ measurement_day_in ledger year month }
{
    ledger::measurement_day(ledger, year, month)
}

#[unsafe(no_mangle)]
pub extern "C" fn nedrulov_is_new(archive: &[u8]) -> bool
    ensures { result ≡ is_new archive.now }
{
    archive::is_new(archive)
}

#[unsafe(no_mangle)]
#[tactic(auto, using(archive::proofs::Answered::told_once))]
pub extern "C" fn nedrulov_check(archive: &[u8]) -> Checked
    ensures { result ≡ checked archive.now }
{
    Checked::from(archive::check(archive))
}

#[unsafe(no_mangle)]
#[tactic(auto, using(archive::proofs::Answered::placed_once))]
pub extern "C" fn nedrulov_place(archive: &[u8], section: usize) -> Place
    ensures { result ≡ place_of archive.now section }
{
    Place::from(archive::place(archive, section))
}

#[unsafe(no_mangle)]
#[tactic(auto, using(archive::proofs::Answered::written_once))]
pub extern "C" fn nedrulov_write(is_new: bool, list: &[u8], out: &mut [u8]) -> Written
    ensures answer { result ≡ written is_new list.now (length out.old) }
    ensures output { out.new ≡ output_after is_new list.now out.old }
{
    Written::from(archive::write(is_new, list, out))
}

#[unsafe(no_mangle)]
pub extern "C" fn nedrulov_figures(archive: &[u8]) -> Figures
    ensures { result ≡ figures_of archive.now }
{
    archive::figures(archive)
}

// The year sheet, row after row, in the first 192 cells; 12 where there are fewer, which then stay.
#[unsafe(no_mangle)]
pub extern "C" fn nedrulov_year_sheet(archive: &[u8], year: u64, cells: &mut [i64]) -> u64
    ensures number { result ≡ cond (ltb (length cells.old) 192) 12 0 }
    ensures cells { cells.new ≡ cells_after (sheet_of archive.now year) cells.old }
{
    put_sheet(archive, year, cells).err().map_or(0, u64::from)
}

// The amount that a DELIVER adds to its bank under the retainage R; 0 where one of the three is out of its range.
#[unsafe(no_mangle)]
#[tactic(auto, unfolding(crate::specs::Amounts::delivery_amount, crate::specs::Amounts::deliverable))]
pub extern "C" fn nedrulov_amount(retainage: u64, delivered: u64, back_cast: u64) -> i64
    ensures { result ≡ delivery_amount retainage delivered back_cast }
{
    Delivery::checked(retainage, Quantity(delivered), Quantity(back_cast)).map_or(
        0,
        |delivery| delivery.retained().0,
    )
}

// A month's minimum and maximum of a BCQ; 0 and 0 where there is no such month or the BCQ is out of its range.
#[unsafe(no_mangle)]
#[tactic(auto, unfolding(crate::specs::Limits::band_of, crate::specs::Limits::limited))]
pub extern "C" fn nedrulov_band(month: u64, bcq: u64) -> Band
    ensures { result ≡ band_of month bcq }
{
    match Limits::checked(Month(month), Dth(bcq)) {
        Some(limits) if (1..=12).contains(&month) => Band {
            minimum: limits.minimum().0,
            maximum: limits.maximum().0,
        },
        _ => Band::default(),
    }
}

// The back-cast of a day from its temperature, in units; 31 where one of the four is no number, 32 where the load is not from 0 to 10^9.
#[unsafe(no_mangle)]
pub extern "C" fn nedrulov_back_cast(curve: LoadCurve, temperature: f64) -> BackCast
    ensures { result ≡ back_cast curve temperature }
{
    backcast::back_cast(curve, temperature)
}

// Who could take a quantity of a seller's gas today, in order.
#[unsafe(no_mangle)]
pub extern "C" fn nedrulov_partners(ledger: Ledger, seller: u64, quantity: u64) -> PartnerList
    ensures { result ≡ partners_of ledger seller quantity }
{
    partners::partners(ledger, seller, quantity)
}
