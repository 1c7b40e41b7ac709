// The reader: what is wrong with an archive, and where a section lies in it.
ghost use Rattle.std.specs.Prelude.{◌≡◌, true, false, ◌+◌, ◌≤◌, ◌<◌, length, map, MatchOption, MatchResult};
ghost use Rattle.archive.specs.Entries.{entries_of, finding};
ghost use Rattle.archive.specs.Faults.{fault_number, Tells};
ghost use Rattle.archive.specs.Reading.{section_count, wrong_header, right_directory, pair_at, pair_in, pairs_of, is_new, checked, list_of};

use crate::answers::Span;
use crate::entries::{InSection, entries_of, first_fault};
use crate::faults::{Fault, Trouble};
use crate::opening::opens_as;
use crate::sections::{MOST_BYTES, MOST_SECTIONS};
use crate::words::half;

#[tactic(auto, unfolding(crate::specs::Reading::section_count))]
fn section_count(bytes: &[u8]) -> usize
    requires { 8 ≤ length bytes.now }
    ensures value { result ≡ section_count bytes.now }
    ensures bounded { result < 65536 }
{
    usize::from(half(bytes, 4))
}

// Number 8.
#[tactic(auto, unfolding(crate::specs::Reading::wrong_header, crate::specs::Reading::right_opening, crate::specs::Layout::body_at))]
fn wrong_header(bytes: &[u8]) -> bool
    ensures { result ≡ wrong_header bytes.now }
{
    let n = bytes.len();
    if n < 8 {
        return true;
    }
    let count = section_count(bytes);
    (MOST_BYTES < n)
        | !(opens_as(false, bytes) | opens_as(true, bytes))
        | !(bytes[6] == 0)
        | !(bytes[7] == 0)
        | (MOST_SECTIONS < count)
        | (n < 8 + 8 * count)
}

// The directory, a pair for each section. It is asked before there is an Archive, so the right header is required of the bytes.
#[tactic(auto, using(crate::proofs::Headers::measured, crate::proofs::Pairs::pairs_cut))]
fn pairs(bytes: &[u8]) -> &[[u8; 8]]
    requires { wrong_header bytes.now ≡ false }
    ensures pairs { map pair_in result.now ≡ pairs_of bytes.now }
    ensures count { length result.now ≡ section_count bytes.now }
{
    let end = 8 + 8 * section_count(bytes);
    let (pairs, _) = bytes[8..end].as_chunks::<8>();
    pairs
}

// What number 9 is about.
#[tactic(auto, using(crate::proofs::Headers::measured))]
fn right_directory(bytes: &[u8]) -> bool
    requires { wrong_header bytes.now ≡ false }
    ensures { result ≡ right_directory bytes.now }
{
    let mut end = 8 + 8 * section_count(bytes);
    for pair in pairs(bytes) {
        let span = Span::from(pair);
        let whole = (0 < span.length) & (span.length % 32 == 0);
        if !((span.start == end) & whole) {
            return false;
        }
        end += span.length;
    }
    end == bytes.len()
}

// An archive whose header and directory are right.
#[derive(Clone, Copy)]
pub struct Archive<'a> {
    bytes: &'a [u8],
    ghost headed: { wrong_header bytes.now ≡ false },
    ghost directed: { right_directory bytes.now ≡ true },
}

impl<'a> Archive<'a> {
    // Numbers 8 and 9.
    #[tactic(auto, unfolding(crate::specs::Reading::checked, crate::specs::Entries::finding, crate::specs::Faults::fault_number))]
    fn open(bytes: &'a [u8]) -> Result<Archive<'a>, Trouble>
        ensures { MatchResult result (λ a. a.bytes.now ≡ bytes.now) (λ t. checked bytes.now ≡ finding (fault_number t.fault) t.index) }
    {
        if wrong_header(bytes) {
            return Err(Trouble::from(Fault::WrongHeader));
        }
        if !right_directory(bytes) {
            return Err(Trouble::from(Fault::WrongDirectory));
        }
        Ok(Archive { bytes })
    }

    // Every check.
    pub fn accepted(bytes: &'a [u8]) -> Result<Archive<'a>, Trouble>
        ensures { MatchResult result (λ a. (a.bytes.now ≡ bytes.now) × (checked bytes.now ≡ finding 0 0)) (λ t. checked bytes.now ≡ finding (fault_number t.fault) t.index) }
    {
        let archive = Archive::open(bytes)?;
        archive.check_sections()?;
        Ok(archive)
    }

    // Numbers 2 to 7 and 10, of every entry.
    fn check_sections(self) -> Result<(), Trouble>
        ensures { Tells result (checked self.entry.bytes.now) }
    {
        let is_new = opens_as(true, self.bytes);
        let mut first = 0;
        for pair in pairs(self.bytes) {
            let span = Span::from(pair);
            let end = span.start + span.length;
            let section = entries_of(&self.bytes[span.start..end]);
            // The directory ends with the file, and no section is empty.
            let last = end == self.bytes.len();
            first_fault(InSection { is_new, last }, section, first)?;
            first += section.len();
        }
        Ok(())
    }

    // Where section i lies.
    pub fn span(self, i: usize) -> Option<Span>
        ensures { MatchOption result (section_count self.entry.bytes.now ≤ i) (λ s. (i < section_count self.entry.bytes.now) × (s.start ≡ (pair_at self.entry.bytes.now i).0) × (s.length ≡ (pair_at self.entry.bytes.now i).1) × (s.start + s.length ≤ length self.entry.bytes.now)) }
    {
        let pair = pairs(self.bytes).get(i)?;
        Some(Span::from(pair))
    }

    // All that follows the directory.
    #[tactic(auto, using(crate::proofs::Headers::measured))]
    pub fn entries(self) -> &'a [[u8; 32]]
        ensures { result.now ≡ entries_of (list_of self.entry.bytes.now) }
    {
        let body = 8 + 8 * section_count(self.bytes);
        entries_of(&self.bytes[body..])
    }
}
