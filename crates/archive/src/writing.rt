// The writer: first what it will answer, then the bytes.
ghost use Rattle.std.specs.Prelude.{◌≡◌, ◌++◌, ◌+◌, ◌*◌, ◌%◌, ◌≤◌, ◌<◌, Err, length, drop};
ghost use Rattle.archive.specs.declared.faults.Fault.TheVariants.{InPieces};
ghost use Rattle.std.proofs.Math.Seq.{paste};
ghost use Rattle.archive.specs.Faults.{Holds};
ghost use Rattle.archive.specs.Layout.{most_bytes, sections_of, concatenated, header, directory, body_at, archive_of};
ghost use Rattle.archive.specs.Writing.{written};

use crate::entries::{ByItself, entries_of, first_fault};
use crate::faults::{Fault, Trouble};
use crate::opening::opening;
use crate::sections::{MOST_BYTES, MOST_SECTIONS, Sections, count_sections};
use crate::words::put_word;

// What the writer answers, given the length of the output.
pub fn plan(is_new: bool, list: &[u8], room: usize) -> Result<usize, Trouble>
    ensures answer { Holds result (written is_new list.now room) }
    ensures pieces { (length list.now % 32 ≡ 0 → ⊥) → result ≡ Err (record { fault = InPieces; index = 0 }) }
{
    let n = list.len();
    if n % 32 != 0 {
        return Err(Trouble::from(Fault::InPieces));
    }
    let entries = entries_of(list);
    first_fault(ByItself { is_new }, entries, 0)?;
    let count = count_sections(entries);
    if (MOST_SECTIONS < count) | (MOST_BYTES < n) {
        return Err(Trouble::from(Fault::TooLarge));
    }
    let length = 8 + 8 * count + n;
    if MOST_BYTES < length {
        return Err(Trouble::from(Fault::TooLarge));
    }
    if room < length {
        return Err(Trouble::from(Fault::NoRoom));
    }
    Ok(length)
}

// A cast: no From, and a TryFrom would need an arm for what cannot come.
#[tactic(auto, unfolding(crate::specs::Layout::header, crate::specs::Words::bytes_of))]
fn header(is_new: bool, count: usize) -> [u8; 8]
    requires { count < 65536 }
    ensures { result ≡ header is_new count }
{
    let [e, f, b, version] = opening(is_new);
    let [low, high] = (count as u16).to_le_bytes();
    [e, f, b, version, low, high, 0, 0]
}

// A pair for each section. Tried with the pairs of `out` zipped: what is lent is no part of such a loop's state, so an invariant can't speak of it, and the proof didn't close.
fn put_directory(out: &mut [u8], entries: &[[u8; 32]], count: usize)
    requires { (count ≡ length (sections_of entries.now)) × (8 + 8 * count + length (concatenated entries.now) ≤ most_bytes) × (8 + 8 * count ≤ length out.old) }
    ensures { out.new ≡ paste out.old 8 (directory (body_at count) (sections_of entries.now)) (8 * count) }
{
    let mut at = 8;
    let mut offset = 8 + 8 * count;
    for section in Sections(entries) {
        let size = section.as_flattened().len();
        put_word(out, at, offset);
        put_word(out, at + 4, size);
        at += 8;
        offset += size;
    }
}

// A section at the start of what is lent, which is the output from the section's offset on; past the section it stays as it was.
fn fill_section(out: &mut [u8], section: &[u8])
    requires { length section.now ≤ length out.old }
    ensures { out.new ≡ section.now ++ drop (length section.now) out.old }
{
    out[..section.len()].copy_from_slice(section);
}

// The sections one by one, each at its own offset of the output (R70), which is a rule of the project: so no zip, and no copy of the whole.
fn put_sections(out: &mut [u8], entries: &[[u8; 32]], body: usize)
    requires { body + length (concatenated entries.now) ≤ length out.old }
    ensures { out.new ≡ paste out.old body (concatenated entries.now) (length (concatenated entries.now)) }
{
    let mut offset = body;
    for section in Sections(entries) {
        let bytes = section.as_flattened();
        fill_section(&mut out[offset..], bytes);
        offset += bytes.len();
    }
}

// The archive of a list that `plan` accepts, at the start of the output.
#[tactic(auto, using(crate::proofs::Plans::planned))]
pub fn put_archive(is_new: bool, out: &mut [u8], list: &[u8])
    requires { (written is_new list.now (length out.old)).number ≡ 0 }
    ensures { out.new ≡ archive_of is_new list.now ++ drop (length (archive_of is_new list.now)) out.old }
{
    let entries = entries_of(list);
    let count = count_sections(entries);
    out[..8].copy_from_slice(&header(is_new, count));
    put_directory(out, entries, count);
    put_sections(out, entries, 8 + 8 * count);
}
