// R81: standard input is an archive, 65,536 bytes long at most, and one line says what the panel shows of it:
// accepted and refused postings and the figure, or what is wrong with the archive and where.
#![tactic(auto)]

use archive::Figures;
use reading::read_full;
use std::fmt;
use std::process::ExitCode;

#[derive(Drop)]
enum Line {
    TooLong,
    Shown(Figures),
}

impl fmt::Display for Line {
    fn fmt<W: fmt::Write>(&self, f: &mut fmt::Formatter<W>) -> fmt::Result {
        match self {
            Line::TooLong => write!(f, "too long"),
            // The struct is C's: its number is 0, or tells what is wrong.
            Line::Shown(s) if s.number == 0 => {
                write!(f, "{} {} {}", s.accepted, s.refused, s.figure)
            }
            Line::Shown(s) => write!(f, "archive {} {}", s.number, s.index),
        }
    }
}

// Where the line cannot be printed the status is 1. The words for it would make the program 50 KB larger.
fn main(rt: HostRuntime) -> ExitCode {
    let mut input = rt.reader();
    // A byte more than an archive may have, which is there only if the input is too long. An array: a Vec would ask C for memory, and that it gives
    // any is one more thing to believe.
    let mut bytes = [0u8; 65537];
    let n = read_full(&mut input, &mut bytes);
    let line = if n == bytes.len() {
        Line::TooLong
    } else {
        Line::Shown(archive::figures(&bytes[..n]))
    };
    match println!(rt; "{line}") {
        Ok(()) => ExitCode::SUCCESS,
        Err(_) => ExitCode::FAILURE,
    }
}
