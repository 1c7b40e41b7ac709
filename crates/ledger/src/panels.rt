// The panel.
ghost use Rattle.std.specs.Prelude.{◌≡◌, true, ◌≤◌};
ghost use Rattle.tariff.specs.Amounts.{size};
ghost use Rattle.ledger.specs.Ranges.{in_range};
ghost use Rattle.ledger.specs.Panel.{open_bank, open_banks, Figures, Shows};

use crate::refusals::Refusal;
use crate::state::{Account, Ledger};
use tariff::amounts::Units;

#[repr(C)]
#[derive(Clone, Copy, PartialEq, Eq, Default, Debug)]
pub struct Panel {
    // As C reads it: 0, or a refusal's number.
    pub number: u64,
    pub figure: Units,
}

impl From<Result<Units, Refusal>> for Panel {
    ghost from_gives = { Shows };

    fn from(figure: Result<Units, Refusal>) -> Panel {
        match figure {
            Ok(figure) => Panel { number: 0, figure },
            Err(refusal) => Panel {
                number: u64::from(refusal),
                figure: Units(0),
            },
        }
    }
}

// The figure that suppliers trade by, of a ledger that is in range.
pub fn figure(ledger: &Ledger) -> Result<Units, Refusal>
    ensures { Figures result ledger.now }
{
    if !ledger.in_range() {
        return Err(Refusal::LedgerOutOfRange);
    }
    Ok(open_banks(ledger))
}

// The sum of the open banks.
fn open_banks(ledger: &Ledger) -> Units
    requires { in_range ledger.now ≡ true }
    ensures { result.0 ≡ open_banks ledger.now.accounts }
{
    let mut figure = Units(0);
    for a in &ledger.accounts {
        figure = figure + open_bank(*a);
    }
    figure
}

#[tactic(auto, using(crate::proofs::Banks::size_none), unfolding(crate::specs::Panel::open_bank))]
pub fn open_bank(a: Account) -> Units
    ensures value { result.0 ≡ open_bank a }
    ensures bounded { size result ≤ size a.bank }
{
    if a.opened { a.bank } else { Units(0) }
}
