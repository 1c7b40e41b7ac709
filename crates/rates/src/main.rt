// Published rates and further cases of the tariff's arithmetic. The file stdout beside src/ holds the results, worked out by hand
// from the company's sheets and the rules.
#![tactic(auto)]

ghost use Rattle.std.specs.Prelude.{◌≡◌, ◌≤◌};

use std::io;
use tariff::amounts::{Dth, Mcf, Quantity};
use tariff::bill::{Prices, Totals};
use tariff::dates::{CalendarMonth, Date};
use tariff::delivery::Delivery;
use tariff::holidays::Holidays;
use tariff::months::Month;
use tariff::ranged::InRange;
use tariff::terms::Terms;

// What an account moved in a month, no more than a ledger lets it.
#[derive(Clone, Copy)]
struct Moved {
    totals: Totals,
    ghost use_fits: { totals.usage.0 ≤ 100000000 },
    ghost cash_fits: { (totals.cash_ins.0 ≤ 100000000000) × (totals.cash_outs.0 ≤ 100000000000) },
    ghost trades_fit: { (totals.sales.0 ≤ 100000000000) × (totals.purchases.0 ≤ 100000000000) },
}

// A month whose bill is shown, by the marked terms at its own rates.
#[derive(Clone, Copy)]
struct Case {
    name: &'static str,
    demand_rate: u64,
    commodity_rate: u64,
    prices: Prices,
    moved: Moved,
}

impl Case {
    fn terms(self) -> Terms {
        Terms {
            no_notice: Dth(120000),
            design_day: Dth(480000),
            storage: Dth(5000400),
            retainage: 150,
            demand_rate: self.demand_rate,
            commodity_rate: self.commodity_rate,
        }
    }

    // The bill for an MDDQ of 1,500 Dth, or nothing where a rate or a price is out of range.
    fn show(self, rt: &impl Print) -> io::Result<()> {
        print!(rt; "{}", self.name)?;
        if let Some(terms) = InRange::checked(self.terms()) {
            if let Some(prices) = InRange::checked(self.prices) {
                return println!(rt; " {}", self.moved.totals.bill(terms, prices, Dth(1500)));
            }
        }
        println!(rt)
    }
}

fn prices(inventory: u64, highest: u64, lowest: u64, pipeline: u64) -> Prices {
    Prices {
        inventory,
        highest,
        lowest,
        pipeline,
    }
}

// The sheets of 2010, 2017, 2021 and 2024, for 10,000 Mcf and no gas traded.
fn sheets(rt: &impl Print) -> io::Result<()> {
    let rates = [
        ("2010", 6130, 18),
        ("2017", 7160, 18),
        ("2021", 11060, 46),
        ("2024", 12550, 32),
    ];
    for (name, demand_rate, commodity_rate) in rates {
        let sheet = Case {
            name,
            demand_rate,
            commodity_rate,
            prices: prices(0, 0, 0, 0),
            moved: Moved::of(0, 0, 0, 0),
        };
        sheet.show(rt)?;
    }
    Ok(())
}

// The marked case's prices, and gas that costs nothing else.
fn free(name: &'static str, moved: Moved) -> Case {
    Case {
        name,
        demand_rate: 0,
        commodity_rate: 0,
        prices: prices(3000, 3000, 2900, 100),
        moved,
    }
}

impl Moved {
    // With 10,000 Mcf used.
    fn of(sales: u64, purchases: u64, cash_ins: u64, cash_outs: u64) -> Moved
        requires cash_fits { (cash_ins ≤ 100000000000) × (cash_outs ≤ 100000000000) }
        requires trades_fit { (sales ≤ 100000000000) × (purchases ≤ 100000000000) }
        ensures traded { (result.totals.sales.0 ≡ sales) × (result.totals.purchases.0 ≡ purchases) }
        ensures cashed { (result.totals.cash_ins.0 ≡ cash_ins) × (result.totals.cash_outs.0 ≡ cash_outs) }
        ensures used { result.totals.usage.0 ≡ 10000 }
    {
        let totals = Totals {
            sales: Quantity(sales),
            purchases: Quantity(purchases),
            cash_ins: Quantity(cash_ins),
            cash_outs: Quantity(cash_outs),
            usage: Mcf(10000),
            ..Totals::default()
        };
        Moved { totals }
    }
}

// What the other four terms of the bill add, one by one, and all six together.
fn trades(rt: &impl Print) -> io::Result<()> {
    let cases = [
        free("cash-in", Moved::of(0, 0, 1000, 0)),
        free("cash-out", Moved::of(0, 0, 0, 2000)),
        free("sale", Moved::of(10000, 0, 0, 0)),
        free("purchase", Moved::of(0, 5000, 0, 0)),
        Case {
            prices: prices(111, 111, 111, 0),
            ..free("floors", Moved::of(199, 0, 1, 1))
        },
        Case {
            prices: prices(4000, 3000, 2900, 100),
            ..free("inventory dearer", Moved::of(0, 0, 1000, 1000))
        },
        Case {
            demand_rate: 12550,
            commodity_rate: 32,
            ..free("all", Moved::of(10000, 5000, 1000, 2000))
        },
    ];
    for case in cases {
        case.show(rt)?;
    }
    Ok(())
}

// The month tables, April to March.
fn months(rt: &impl Print) -> io::Result<()> {
    for n in [4, 5, 6, 7, 8, 9, 10, 11, 12, 1, 2, 3] {
        let m = Month(n);
        print!(rt;
            "month {n} {} {}",
            m.least_bank().hundredths,
            m.largest_bank().hundredths
        )?;
        println!(rt;
            " {} {} {}",
            m.most_added().hundredths,
            m.most_withdrawn().hundredths,
            m.least_withdrawn().hundredths
        )?;
    }
    Ok(())
}

// The measurement days of a year's months, where no holiday is held.
fn measurement_days(rt: &impl Print, year: u64) -> io::Result<()> {
    print!(rt; "measured {year}")?;
    let months = (1..=12).filter_map(|n| CalendarMonth::checked(year, Month(n)));
    for month in months {
        if let Some(day) = Holidays::none().measured_on(month) {
            print!(rt; " {day}")?;
        }
    }
    println!(rt)
}

fn yes_or_no(b: bool) -> &'static str {
    if b { "yes" } else { "no" }
}

// The day after a date, and whether it closes its month.
fn following(rt: &impl Print, date: InRange<Date>) -> io::Result<()> {
    let next = date.day_after();
    print!(rt; " {} {} {}", next.year, next.month.0, next.day)?;
    if let Some(next) = InRange::checked(next) {
        print!(rt; " {}", yes_or_no(next.last_of_month()))?;
    }
    Ok(())
}

// Leap days, ends of months and years, and dates that do not exist.
fn dates(rt: &impl Print) -> io::Result<()> {
    let dates = [
        (2000, 2, 28),
        (2000, 2, 29),
        (2023, 2, 28),
        (2023, 2, 29),
        (2024, 2, 28),
        (2024, 2, 29),
        (2026, 4, 30),
        (2026, 4, 31),
        (2026, 12, 31),
        (2099, 12, 30),
        (2100, 1, 1),
        (1999, 12, 31),
        (2026, 13, 1),
        (2026, 0, 1),
        (2026, 7, 0),
    ];
    for (year, month, day) in dates {
        print!(rt; "date {year} {month} {day}")?;
        let date = Date {
            year,
            month: Month(month),
            day,
        };
        match InRange::checked(date) {
            Some(date) => following(rt, date)?,
            None => print!(rt; " none")?,
        }
        println!(rt)?;
    }
    Ok(())
}

fn amounts(rt: &impl Print) -> io::Result<()> {
    print!(rt; "retained")?;
    let deliveries = [
        Delivery::of(150, Quantity(1000), Quantity(0)),
        Delivery::of(150, Quantity(0), Quantity(1001)),
        Delivery::of(0, Quantity(0), Quantity(1000000000)),
        Delivery::of(9999, Quantity(9999), Quantity(0)),
        Delivery::of(9999, Quantity(10000), Quantity(0)),
        Delivery::of(9999, Quantity(0), Quantity(19999)),
    ];
    for d in deliveries {
        let left = d.retained();
        print!(rt; " {left}")?;
    }
    println!(rt)
}

fn main(rt: HostRuntime) -> io::Result<()> {
    sheets(&rt)?;
    trades(&rt)?;
    months(&rt)?;
    measurement_days(&rt, 2026)?;
    measurement_days(&rt, 2027)?;
    dates(&rt)?;
    amounts(&rt)
}
