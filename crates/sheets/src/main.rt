// R79: the year sheets of 2025, 2026 and 2027, a row for each account, of the archive on standard input,
// which may be up to 65,536 bytes long.
#![tactic(auto)]

use reading::read_full;
use std::{fmt, io};
use tariff::amounts::Units;

// An account's banks at the ends of the months, with a space between two.
#[derive(Drop)]
struct Row([Units; 12]);

impl fmt::Display for Row {
    fn fmt<W: fmt::Write>(&self, f: &mut fmt::Formatter<W>) -> fmt::Result {
        for (month, bank) in self.0.iter().enumerate() {
            if month != 0 {
                write!(f, " ")?;
            }
            write!(f, "{bank}")?;
        }
        Ok(())
    }
}

fn main(rt: HostRuntime) -> io::Result<()> {
    let mut input = rt.reader();
    // An array: a Vec would ask C for memory, and that it gives any is one more thing to believe.
    let mut bytes = [0u8; 65536];
    let n = read_full(&mut input, &mut bytes);
    for year in [2025, 2026, 2027] {
        for banks in archive::year_sheet(&bytes[..n], year) {
            println!(rt; "{}", Row(banks))?;
        }
    }
    Ok(())
}
