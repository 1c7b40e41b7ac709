// The year sheet, laid into cells that the caller lends.
ghost use Rattle.std.specs.Prelude.{◌≡◌, ◌≤◌, cond, ltb, length, drop, ◌++◌};
ghost use Rattle.archive.specs.Faults.{Passes};
ghost use Rattle.archive.specs.YearSheet.{grid, cell_at, sheet_of};
ghost use Rattle.nedrulov.specs.Cells.{cells_of, cells_after};

use archive::Fault;
use tariff::amounts::Units;

// Row after row. Tried with the cells zipped by `iter_mut`: what is lent is no part of such a loop's state, so an invariant can't speak of it, and the proof didn't close.
fn put_cells(sheet: &[[Units; 12]; 16], cells: &mut [i64])
    requires { (192 ≤ length cells.old) × (sheet.now ≡ grid (cell_at sheet.now)) }
    ensures { cells.new ≡ cells_of sheet.now ++ drop 192 cells.old }
{
    for (k, bank) in sheet.as_flattened().iter().enumerate() {
        cells[k] = bank.0;
    }
}

pub fn put_sheet(archive: &[u8], year: u64, cells: &mut [i64]) -> Result<(), Fault>
    ensures number { Passes result (cond (ltb (length cells.old) 192) 12 0) }
    ensures cells { cells.new ≡ cells_after (sheet_of archive.now year) cells.old }
{
    if cells.len() < 192 {
        return Err(Fault::NoRoom);
    }
    put_cells(&archive::year_sheet(archive, year), cells);
    Ok(())
}
