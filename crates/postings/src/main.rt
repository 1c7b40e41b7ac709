// Posts a list from standard input and prints every answer, then the banks, what is owed, the violation days, the date and the panel.
// The input is a sequence of records: 'P', a length byte and that many bytes are a posting; 'K', an account, a field and a signed
// number of 8 bytes, little-endian, overwrite one number of the ledger, as a hostile caller might.
#![tactic(auto)]

mod overwriting;
mod records;

use crate::overwriting::overwrite;
use crate::records::{Record, Records};
use ledger::{Account, Answer, Ledger, Report};
use reading::read_full;
use std::{fmt, io};

// An answer's line: its number, and each account of which there is anything to tell.
#[derive(Drop)]
struct Told(Answer);

impl fmt::Display for Told {
    fn fmt<W: fmt::Write>(&self, f: &mut fmt::Formatter<W>) -> fmt::Result {
        let answer = self.0;
        write!(f, "{}", answer.number)?;
        for (account, report) in answer.reports.iter().enumerate() {
            if *report != Report::default() {
                write!(f, " {account}:{},{}", report.mask, report.cash)?;
                write!(f, ",{},{}", report.forfeit.0, report.bill)?;
            }
        }
        Ok(())
    }
}

fn run(rt: &impl Print, input: &[u8]) -> io::Result<Ledger> {
    let mut l = ledger::fresh(false);
    for record in Records(input) {
        match record {
            Record::Posting(entry) => println!(rt; "{}", Told(ledger::post_in(&mut l, entry)))?,
            Record::Overwriting(number) => overwrite(&mut l, number),
        }
    }
    Ok(l)
}

// A number of each account; one not open counts as 0.
fn line<D: fmt::Display + Default + Drop, Of: Fn(&Account) -> D>(
    rt: &impl Print,
    name: &str,
    l: &Ledger,
    of: Of,
) -> io::Result<()>
    requires { Of.IsAlwaysCallable of }
{
    print!(rt; "{name}")?;
    for a in &l.accounts {
        let number = if a.opened { of(a) } else { D::default() };
        print!(rt; " {number}")?;
    }
    println!(rt)
}

fn last_lines(rt: &impl Print, l: &Ledger) -> io::Result<()> {
    line(rt, "banks", l, |a| a.bank)?;
    line(rt, "owed", l, |a| a.owed)?;
    line(rt, "days", l, |a| a.violation_days)?;
    println!(rt; "date {} {} {}", l.date.year, l.date.month.0, l.date.day)?;
    let shown = ledger::panel(*l);
    println!(rt; "panel {} {}", shown.number, shown.figure)
}

fn main(rt: HostRuntime) -> io::Result<()> {
    let mut input = rt.reader();
    // An array: a Vec would ask C for memory, and that it gives any is one more thing to believe.
    let mut buffer = [0u8; 65536];
    let n = read_full(&mut input, &mut buffer);
    let l = run(&rt, &buffer[..n])?;
    last_lines(&rt, &l)
}
