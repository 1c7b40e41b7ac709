// The year sheet: accounts by months.
ghost use Rattle.std.specs.Prelude.{◌≡◌, cond, ◌<◌, ◌&&◌, eqb};
ghost use Rattle.ledger.specs.Entries.{entry_of};
ghost use Rattle.ledger.specs.State.{fresh};
ghost use Rattle.archive.specs.YearSheet.{grid, no_bank, cell_at, bank_in, in_gas_year, closes_in, cell_after};

use crate::entries::closes_month;
use crate::words::half;
use ledger::Ledger;
use tariff::amounts::Units;
use tariff::months::Month;

// Whether an entry's date lies from April of a year to March of the next.
#[tactic(auto, unfolding(crate::specs::YearSheet::in_gas_year), using(ledger::proofs::Fields::year_half, ledger::proofs::Fields::month_byte))]
fn in_gas_year(entry: &[u8; 32], year: u64) -> bool
    ensures { result ≡ in_gas_year year (entry_of entry.now).date }
{
    let dated = u64::from(half(entry, 4));
    if 4 <= entry[6] {
        dated == year
    } else {
        dated.checked_sub(1) == Some(year)
    }
}

// Every account's bank put into the column of a month.
fn put_column(sheet: &mut [[Units; 12]; 16], ledger: Ledger, month: usize)
    requires { (sheet.old ≡ grid (cell_at sheet.old)) × (month < 12) }
    ensures { sheet.new ≡ grid (λ i m. cond (eqb month m) (bank_in ledger i) (cell_at sheet.old i m)) }
{
    for (i, row) in sheet.iter_mut().enumerate() {
        row[month] = ledger::bank(ledger, i);
    }
}

// The sheet of an old list of entries, or a new one, posted to a fresh ledger.
pub fn sheet_of(is_new: bool, entries: &[[u8; 32]], year: u64) -> [[Units; 12]; 16]
    ensures { result ≡ grid (λ i m. cell_after year i m no_bank (fresh is_new) entries.now) }
{
    let mut ledger = ledger::fresh(is_new);
    let mut sheet = [[Units(0); 12]; 16];
    for entry in entries {
        let answer = ledger::post_in(&mut ledger, entry);
        if answer.accepted() & closes_month(entry) & in_gas_year(entry, year) {
            let month = Month(u64::from(entry[6]));
            put_column(&mut sheet, ledger, month.gas_month());
        }
    }
    sheet
}
