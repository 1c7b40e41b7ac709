// Where a list of entries falls into sections.
ghost use Rattle.std.specs.Prelude.{◌≡◌, length};
ghost use Rattle.std.specs.Iterator.{YieldsFirstBy, item_count};
ghost use Rattle.archive.specs.Layout.{concatenated, sections_of};

use crate::entries::closes_month;

pub const MOST_SECTIONS: usize = 1200;

pub const MOST_BYTES: usize = 4294967295;

// The sections of a list, each up to the entry that closes a month, or to the end.
#[derive(Drop)]
pub struct Sections<'a>(pub &'a [[u8; 32]]);

impl<'a> Iterator for Sections<'a> {
    type Item = &'a [[u8; 32]];

    ghost next_gives = { YieldsFirstBy (λ section. concatenated section.now) (λ s. sections_of s.0.now) };

    ghost remaining = { item_count (λ s. sections_of s.0.now) };

    fn next(&mut self) -> Option<&'a [[u8; 32]]> {
        let section = self.0.split_inclusive(|entry| closes_month(entry)).next()?;
        let rest = &self.0[section.len()..];
        self.0 = rest;
        Some(section)
    }
}

#[tactic(auto, using(crate::proofs::Splits::few_sections))]
pub fn count_sections(entries: &[[u8; 32]]) -> usize
    ensures { result ≡ length (sections_of entries.now) }
{
    Sections(entries).count()
}
