// From a header text and two sheets to the bytes of what is asked.
ghost use Rattle.std.specs.Prelude.{◌≡◌, ◌≤◌, length, take};
ghost use Rattle.fund.specs.Sheets.{sheet_reading};
ghost use Rattle.writing.specs.Writing.{Written};
ghost use Rattle.fund_printing.specs.Printed.{shown_to};

use crate::{Asked, CELLS};
use fund::Cells;

// Prices the fund of a header text and two sheets and writes what is asked, as `print` does of a file.
pub fn print_sheets(
    asked: Asked,
    header: &[u8],
    rates: &[u8],
    members: &[u8],
    text: &mut [u8],
) -> usize
    ensures written { Written (shown_to asked header.now (sheet_reading header.now rates.now members.now) (length text.old))
        text.old text.new result }
    ensures upper_bound { (result ≤ length text.new) × (result ≡ length (take result text.new)) }
{
    let mut transform = [0i64; CELLS];
    let mut h = [0u64; CELLS];
    let mut f = [0i64; CELLS];
    let mut r = [0u64; CELLS];
    let mut sums = [0i64; CELLS];
    let mut cells = Cells::new(&mut transform, &mut h, &mut f, &mut r, &mut sums);
    let answer = pricing::price_sheets(header, rates, members, asked.level(), &mut cells);
    crate::write_asked(asked, answer, &cells, text)
}
