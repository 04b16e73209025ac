// One call prices a fund: from the bytes of its file, or of its header text and two sheets, to its figures and cells, or to the refusal and its place.
#![tactic(auto)]

ghost use Rattle.std.specs.Prelude.{◌≡◌, ◌≤◌, ◌-◌, length, Err};
ghost use Rattle.fund.specs.Answer.{part};
ghost use Rattle.fund.specs.Cells.{lengths, SameSlices};
ghost use Rattle.fund.specs.Quantile.{quantile};
ghost use Rattle.fund.specs.Reading.{Reading, reading};
ghost use Rattle.fund.specs.Sheets.{sheet_reading};
ghost use Rattle.valuation.specs.Valued.{left_valued};
ghost use Rattle.rows.specs.Read.{file_read};
ghost use Rattle.pricing.specs.Priced.{left_priced, valued_of, found_in, Prices, PricesRead, line_between, line_of};

use arrayvec::ArrayVec;
use fund::{Cells, Figures, Refused};
use rows::{FileRead, Rows};

// What a call answers of a fund that it prices, beside the result slices: the horizon, the figures, and the answer at the level.
#[derive(Clone, Copy, PartialEq, Eq)]
pub struct Priced {
    pub horizon: u64,
    pub figures: Figures,
    pub quantile: Option<u64>,
}

// What it answers of a fund that it refuses: the refusal, and where the part of the host's bytes that goes with it starts and ends.
#[derive(Clone, Copy, PartialEq, Eq)]
pub struct NotPriced {
    pub refused: Refused,
    pub start: usize,
    pub end: usize,
}

// A refusal with its line in the text.
fn not_priced(text: &[u8], refused: Refused) -> NotPriced
    ensures refused { result.refused ≡ refused }
    ensures line { record { start = result.start; size = result.end - result.start } ≡ part text.now (Err refused) }
    ensures inside { (result.start ≤ result.end) × (result.end ≤ length text.now) }
{
    let line = lines::part_of(text, Err(refused));
    NotPriced {
        refused,
        start: line.start,
        end: line.end,
    }
}

// Where 3 to 6 stop, their refusal, and else the valuation of the model points.
fn valued(rows: Rows<'_>, cells: &mut Cells) -> Result<Figures, Refused>
    ensures same_slices { SameSlices cells.old cells.new }
    ensures left { left_valued result cells.new ≡ valued_of rows.entry (lengths cells.old) }
{
    let mut points = ArrayVec::new();
    match matching::match_points(rows, &mut points) {
        Ok(()) => valuation::value(rows.fund, points.as_slice(), cells),
        Err(refused) => {
            cells.clear();
            Err(refused)
        }
    }
}

// The answer at the level, of the sums as they are lent.
fn quantile_in(level: u64, horizon: usize, sums: &mut [i64]) -> Option<u64>
    ensures same { sums.new ≡ sums.old }
    ensures answer { result ≡ quantile level horizon sums.old }
{
    quantile::quantile(level, horizon, &sums[..])
}

// Prices rows that were read of a text. The part that goes with a refusal is one of the text.
fn price_rows(
    text: &[u8],
    rows: Rows<'_>,
    level: u64,
    cells: &mut Cells,
) -> Result<Priced, NotPriced>
    ensures same_slices { SameSlices cells.old cells.new }
    ensures prices { PricesRead text.now (Ok rows.entry) level (lengths cells.old) result (left_priced result cells.new) }
{
    match valued(rows, cells) {
        Ok(figures) => {
            let horizon = rows.fund.horizon;
            let quantile = quantile_in(level, horizon as usize, cells.sums);
            Ok(Priced {
                horizon,
                figures,
                quantile,
            })
        }
        Err(refused) => Err(not_priced(text, refused)),
    }
}

// Prices what was read of a text: where reading stopped, its refusal; else the rows are matched and valued.
pub fn price_read(
    text: &[u8],
    found: Result<Rows<'_>, Refused>,
    level: u64,
    cells: &mut Cells,
) -> Result<Priced, NotPriced>
    ensures same_slices { SameSlices cells.old cells.new }
    ensures prices { PricesRead text.now found.entry level (lengths cells.old) result (left_priced result cells.new) }
{
    match found {
        Ok(rows) => price_rows(text, rows, level, cells),
        Err(refused) => {
            cells.clear();
            Err(not_priced(text, refused))
        }
    }
}

// What was read, as rows.
pub fn rows_of(found: &Result<FileRead, Refused>) -> Result<Rows<'_>, Refused>
    ensures { (x : Reading) → found.now ≡ file_read x → found_in result ≡ x }
{
    match found {
        Ok(found) => Ok(found.rows()),
        Err(refused) => Err(*refused),
    }
}

// Prices the fund of a file into the five result slices, and answers at a level.
pub fn price(file: &[u8], level: u64, cells: &mut Cells) -> Result<Priced, NotPriced>
    ensures same_slices { SameSlices cells.old cells.new }
    ensures prices { Prices file.now (reading file.now) level (lengths cells.old) result (left_priced result cells.new) }
{
    price_read(file, rows_of(&reader::read(file)), level, cells)
}

// The same of a header text and two sheets of binary64 cells, of rates and of members.
pub fn price_sheets(
    header: &[u8],
    rates: &[u8],
    members: &[u8],
    level: u64,
    cells: &mut Cells,
) -> Result<Priced, NotPriced>
    ensures same_slices { SameSlices cells.old cells.new }
    ensures prices { Prices header.now (sheet_reading header.now rates.now members.now) level (lengths cells.old) result (left_priced result cells.new) }
{
    price_read(
        header,
        rows_of(&sheet_reader::read(header, rates, members)),
        level,
        cells,
    )
}

// The part of a host's bytes from start to end; where these lie outside, an empty one.
pub fn line_between<'a>(file: &'a [u8], start: usize, end: usize) -> &'a [u8]
    ensures { result.now ≡ line_between file.now start end }
{
    file.get(start..end).unwrap_or(&file[0..0])
}

// The line that the host is handed, a part of its own bytes.
pub fn line<'a>(file: &'a [u8], answer: Result<Priced, NotPriced>) -> &'a [u8]
    ensures { result.now ≡ line_of file.now answer }
{
    match answer {
        Ok(_) => &file[0..0],
        Err(stop) => line_between(file, stop.start, stop.end),
    }
}
