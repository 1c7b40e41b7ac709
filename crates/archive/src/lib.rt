// The archive: what is opened in thirty years.
#![tactic(auto)]

mod answers;
mod entries;
mod faults;
mod opening;
mod reading;
mod replaying;
mod sections;
mod sheet;
mod words;
mod writing;

ghost use Rattle.std.specs.Prelude.{◌≡◌, ◌+◌, ◌%◌, ◌≤◌, Err, length, IfOk, MatchResult};
ghost use Rattle.archive.specs.Faults.{Tells, LiesAt, Holds, Lent};
ghost use Rattle.archive.specs.declared.faults.Fault.TheVariants.{InPieces};
ghost use Rattle.archive.specs.Writing.{written, output_after};
ghost use Rattle.archive.specs.Reading.{is_new, checked, place_of};
ghost use Rattle.archive.specs.Replay.{entries_in, replayed, figures_of, BanksAddUp, FigureAddsUp, DebtsAddUp, DaysAddUp, StrikingChangesNothing};
ghost use Rattle.archive.specs.YearSheet.{sheet_of};
ghost use Rattle.archive.specs.RoundTrips.{ReadsBack, WritesBack};
ghost use Rattle.archive.specs.OldAndNew.{FourthByteTells, OneByteApart, OldIsNotNew, OldKindsOnly, LaterKindsRefused};
ghost use Rattle.archive.specs.WorkedCases.{WorkedCases};

use crate::opening::opens_as;
use crate::reading::Archive;
use crate::replaying::post_all;
use crate::sheet::sheet_of;
use crate::writing::{plan, put_archive};
use tariff::amounts::Units;

// The types that cross the boundary; the functions that do stand below, and none of them requires anything.
pub use answers::{Checked, Place, Span, Written};
pub use faults::{Fault, Trouble};
pub use replaying::{Figures, Replay};

// The archive of a list of entries, old or new, at the start of the output; how long it is. The three are C's, handed through.
#[tactic(auto, unfolding(crate::specs::Writing::output_after), using(crate::proofs::Plans::untouched))]
pub fn write(is_new: bool, list: &[u8], out: &mut [u8]) -> Result<usize, Trouble>
    ensures answer { Holds result (written is_new list.now (length out.old)) }
    ensures output { out.new ≡ output_after is_new list.now out.old }
    ensures pieces { (length list.now % 32 ≡ 0 → ⊥) → result ≡ Err (record { fault = InPieces; index = 0 }) }
{
    let length = plan(is_new, list, out.len())?;
    put_archive(is_new, out, list);
    Ok(length)
}

// Whether an archive is new: its first four bytes tell, whatever follows them.
#[tactic(auto, unfolding(crate::specs::Reading::is_new))]
pub fn is_new(archive: &[u8]) -> bool
    ensures { result ≡ is_new archive.now }
{
    opens_as(true, archive)
}

// What is wrong with an archive, and at which entry.
pub fn check(archive: &[u8]) -> Result<(), Trouble>
    ensures { Tells result (checked archive.now) }
{
    Archive::accepted(archive)?;
    Ok(())
}

// Where section i lies.
pub fn place(archive: &[u8], i: usize) -> Result<Span, Trouble>
    ensures value { LiesAt result (place_of archive.now i) }
    ensures within { IfOk result (λ s. s.start + s.length ≤ length archive.now) }
{
    let accepted = Archive::accepted(archive)?;
    accepted.span(i).ok_or(Trouble::from(Fault::NoSuchSection))
}

// Section i, as that part of the archive.
#[tactic(auto, using(crate::proofs::Places::part_lent))]
pub fn section(archive: &[u8], i: usize) -> Result<&[u8], Trouble>
    ensures { Lent result archive.now i }
{
    let span = place(archive, i)?;
    let end = span.start + span.length;
    Ok(&archive[span.start..end])
}

// What is found of an archive, and its entries: none where it is refused. No Result, as a refused one is replayed too, as no entries.
fn read(archive: &[u8]) -> (Checked, &[[u8; 32]])
    ensures { (result.0 ≡ checked archive.now) × (result.1.now ≡ entries_in archive.now) }
{
    match Archive::accepted(archive) {
        Ok(accepted) => (Checked::from(Ok(())), accepted.entries()),
        Err(trouble) => (Checked::from(Err(trouble)), &[]),
    }
}

// The entries of an archive posted in order to a fresh ledger, old or new as the archive is.
pub fn replay(archive: &[u8]) -> Replay
    ensures { result ≡ replayed archive.now }
{
    let (found, entries) = read(archive);
    post_all(is_new(archive), entries, found)
}

// Accepted count, refused count and panel figure.
#[tactic(auto, unfolding(crate::specs::Replay::figures_of))]
pub fn figures(archive: &[u8]) -> Figures
    ensures { result ≡ figures_of archive.now }
{
    let r = replay(archive);
    let figure = ledger::panel(r.ledger).figure;
    Figures {
        number: r.number,
        index: r.index,
        accepted: r.accepted,
        refused: r.refused,
        figure,
    }
}

// The banks of the gas year that begins in April of a year, accounts by months.
#[tactic(auto, using(crate::proofs::Columns::sheet_is))]
pub fn year_sheet(archive: &[u8], year: u64) -> [[Units; 12]; 16]
    ensures { result ≡ sheet_of archive.now year }
{
    let (_, entries) = read(archive);
    sheet_of(is_new(archive), entries, year)
}

// R76, of every list and every archive: specs/RoundTrips.antt has both directions in words.
pub fn round_trips()
    ensures reads_back { ReadsBack }
    ensures writes_back { WritesBack }
{}

// R84 and R87: specs/OldAndNew.antt has each claim in words.
pub fn old_and_new()
    ensures fourth_byte { FourthByteTells }
    ensures one_byte { OneByteApart }
    ensures apart { OldIsNotNew }
    ensures old_kinds { OldKindsOnly }
    ensures later_kinds { LaterKindsRefused }
{}

// R78: what `history::every_history` claims of every list holds of the entries that an archive holds.
pub fn every_archive()
    ensures banks { BanksAddUp }
    ensures figure { FigureAddsUp }
    ensures debts { DebtsAddUp }
    ensures violation_days { DaysAddUp }
    ensures struck { StrikingChangesNothing }
{}

// One list written, read and figured, and one of each number from 8 to 13.
pub fn worked_cases()
    ensures { WorkedCases }
{}
