// The state that postings change.
ghost use Rattle.std.specs.Prelude.{◌≡◌};

use tariff::amounts::{Dth, Mills, Quantity, Units};
use tariff::bill::Totals;
use tariff::dates::Date;
use tariff::holidays::Holidays;
use tariff::steps::Step;
use tariff::terms::{Capacity, Terms};

// C lends these structs whole, so a flag stands beside what it speaks of, and nothing here is an Option.

// A letter that waits for its counterpart; where none stands, the other members mean nothing.
#[repr(C)]
#[derive(Clone, Copy, PartialEq, Eq, Default, Debug)]
pub struct Notice {
    pub stands: bool,
    // Its side. A bool, as a byte that C writes may name no side.
    pub takes: bool,
    // Whom it names.
    pub other: usize,
    pub units: Quantity,
}

// What every closing clears.
#[repr(C)]
#[derive(Clone, Copy, PartialEq, Eq, Default, Debug)]
pub struct Today {
    // DELIVER was accepted.
    pub delivered: bool,
    // What that delivery broke.
    pub v1: bool,
    pub v2: bool,
    // CONFISCATED was accepted, and the amount that it told.
    pub confiscated: bool,
    pub confiscation: Quantity,
    pub notice: Notice,
}

// What CLOSE MONTH clears.
#[repr(C)]
#[derive(Clone, Copy, PartialEq, Eq, Default, Debug)]
pub struct ThisMonth {
    pub totals: Totals,
    // MEASURE and USAGE were accepted.
    pub measured: bool,
    pub metered: bool,
}

#[repr(C)]
#[derive(Clone, Copy, PartialEq, Eq, Default, Debug)]
pub struct Account {
    pub opened: bool,
    // A fall of the step excuses a bank above its limit until it fits again.
    pub excused: bool,
    pub today: Today,
    pub bank: Units,
    pub mdq: Dth,
    pub step: Step,
    pub capacity: Capacity,
    pub month: ThisMonth,
    pub carry: Quantity,
    pub owed: Mills,
    pub violation_days: u64,
}

// Compared and printed nowhere: the code of it would lie in the image.
#[repr(C)]
#[derive(Clone, Copy)]
pub struct Ledger {
    pub begun: bool,
    // Something was accepted today.
    pub touched: bool,
    // Under which rules it was begun; no posting changes it. A bool, as C has it: an enum of two would be made of it and turned back at each call.
    pub is_new: bool,
    pub date: Date,
    pub terms: Terms,
    // The days on which no meter is read.
    pub holidays: Holidays,
    // As many as a company has at most: no heap, and the place of each is C's.
    pub accounts: [Account; 16],
}

// The account as it is, read at a place that only a run can tell. So the compiler copies it whole; one that it sees through it
// takes apart, and with it every ledger that is made of it (docs/DECISIONS.md, 127).
pub fn in_one_piece(a: Account, which: bool) -> Account
    ensures { result ≡ a }
{
    let both = [a; 2];
    both[usize::from(which)]
}
