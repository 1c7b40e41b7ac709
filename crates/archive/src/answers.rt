// What C is answered: number and index of what is wrong, or 0 and 0, beside what was asked for.
// The numbers stay as fields, as C's structs have them; inside, an answer is a Result.
ghost use Rattle.std.specs.Prelude.{◌≡◌, ◌<◌};
ghost use Rattle.archive.specs.Reading.{pair_in};
ghost use Rattle.archive.specs.Faults.{Tells, LiesAt, Holds};

use crate::faults::Trouble;
use crate::words::word;

#[repr(C)]
#[derive(Clone, Copy, PartialEq, Eq, Debug)]
pub struct Checked {
    pub number: u64,
    // Of the entry that the number is about, counted over the whole list or file; 0 where it is about none.
    pub index: usize,
}

// Where a section lies in its archive.
#[repr(C)]
#[derive(Clone, Copy, PartialEq, Eq, Debug)]
pub struct Place {
    pub number: u64,
    pub index: usize,
    pub start: usize,
    pub length: usize,
}

#[repr(C)]
#[derive(Clone, Copy, PartialEq, Eq, Debug)]
pub struct Written {
    pub number: u64,
    pub index: usize,
    // Of the archive; 0 where it was refused.
    pub length: usize,
}

// A part of an archive.
#[derive(Clone, Copy, PartialEq, Eq, Debug)]
pub struct Span {
    pub start: usize,
    pub length: usize,
}

// A pair of the directory.
impl From<&[u8; 8]> for Span {
    ghost from_gives = { λ p s. (s.start ≡ (pair_in p.now).0) × (s.length ≡ (pair_in p.now).1) × (s.start < 4294967296) × (s.length < 4294967296) };

    #[tactic(auto, unfolding(crate::specs::Reading::pair_in))]
    fn from(pair: &[u8; 8]) -> Span {
        Span {
            start: word(pair, 0),
            length: word(pair, 4),
        }
    }
}

// Three, as C's structs differ in what stands beside number and index.
impl From<Result<(), Trouble>> for Checked {
    ghost from_gives = { λ r c. Tells r c };

    #[tactic(auto, unfolding(crate::specs::Entries::finding))]
    fn from(answer: Result<(), Trouble>) -> Checked {
        match answer {
            Ok(()) => Checked {
                number: 0,
                index: 0,
            },
            Err(trouble) => Checked {
                number: u64::from(trouble.fault),
                index: trouble.index,
            },
        }
    }
}

impl From<Result<Span, Trouble>> for Place {
    ghost from_gives = { λ r p. LiesAt r p };

    #[tactic(auto, unfolding(crate::specs::Reading::nowhere))]
    fn from(answer: Result<Span, Trouble>) -> Place {
        match answer {
            Ok(span) => Place {
                number: 0,
                index: 0,
                start: span.start,
                length: span.length,
            },
            Err(trouble) => Place {
                number: u64::from(trouble.fault),
                index: trouble.index,
                start: 0,
                length: 0,
            },
        }
    }
}

impl From<Result<usize, Trouble>> for Written {
    ghost from_gives = { λ r w. Holds r w };

    #[tactic(auto, unfolding(crate::specs::Writing::unwritten))]
    fn from(answer: Result<usize, Trouble>) -> Written {
        match answer {
            Ok(length) => Written {
                number: 0,
                index: 0,
                length,
            },
            Err(trouble) => Written {
                number: u64::from(trouble.fault),
                index: trouble.index,
                length: 0,
            },
        }
    }
}
