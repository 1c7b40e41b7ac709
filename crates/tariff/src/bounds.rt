// The largest value of each number that has a range, as specs/Bounds.antt names them.

pub const MOST_NO_NOTICE: u64 = 10000000;

pub const MOST_DESIGN_DAY: u64 = 100000000;

pub const MOST_RETAINAGE: u64 = 9999;

pub const MOST_RATE: u64 = 100000;

pub const MOST_UNITS: u64 = 1000000000;

pub const MOST_BANK: u64 = 100000000000;

pub const MOST_OVERDRAFT: u64 = 1000000000;

pub const MOST_MDQ: u64 = 300000;

pub const MOST_BCQ: u64 = 30000000;

pub const MOST_MCF: u64 = 100000000;

pub const MOST_OWED: u64 = 1000000000000000;

pub const MOST_DAYS: u64 = 40000;
