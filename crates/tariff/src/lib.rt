// Rider EFBS's arithmetic. Every function is proved equal to a definition in specs/, and the layers above know it by that alone.
#![tactic(auto)]

pub mod amounts;
pub mod bill;
pub mod bounds;
pub mod closing;
pub mod dates;
pub mod delivery;
pub mod enrol;
pub mod holidays;
pub mod limits;
pub mod months;
pub mod ranged;
pub mod steps;
pub mod terms;

ghost use Rattle.tariff.specs.Calendar.{RightDays};
ghost use Rattle.tariff.specs.MarkedCases.{MarkedCases};
ghost use Rattle.tariff.specs.MeasurementDays.{FindsFirst, OnlyOne, EveryMonth, PlainWithoutHolidays, MovesOn};

// The cases worked out in advance hold of the definitions, as one group.
#[tactic(auto, using(crate::proofs::MarkedCases::all_nine))]
pub fn marked_cases()
    ensures { MarkedCases }
{}

// The day after a date is the right one, from 1 January 2000 to 30 December 2099.
pub fn right_days()
    ensures { RightDays }
{}

// R105 and R106: specs/MeasurementDays.antt has each claim in words.
#[tactic(auto, using(crate::proofs::BusinessDays::finds_first, crate::proofs::BusinessDays::only_one, crate::proofs::BusinessDays::every_month, crate::proofs::BusinessDays::plain_without_holidays, crate::proofs::BusinessDays::moves_on))]
pub fn measurement_days()
    ensures first { FindsFirst }
    ensures only_one { OnlyOne }
    ensures every_month { EveryMonth }
    ensures plain { PlainWithoutHolidays }
    ensures moves_on { MovesOn }
{}
