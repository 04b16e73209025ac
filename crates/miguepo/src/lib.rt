// What the pricing calls for C do, and what an answer is handed over as. The calls themselves, as include/miguepo.h declares them, are the exports of miguepo_c, whose
// clauses are these.
#![tactic(auto)]

ghost use Rattle.std.specs.Prelude.{◌≡◌, Ok, Err};
ghost use Rattle.fund.specs.Cells.{lengths, SameSlices};
ghost use Rattle.fund.specs.Reading.{reading};
ghost use Rattle.fund.specs.Sheets.{sheet_reading};
ghost use Rattle.pricing.specs.Priced.{figures_in};
ghost use Rattle.miguepo.specs.Bits.{bits_of, read_signed};
ghost use Rattle.miguepo.specs.Host.{told_fields, priced_fields, HostsCells};

use fund::{Cells, Figures, Verdict};
use pricing::{NotPriced, Priced};

// How many fields the struct has that C declares.
pub const FIELDS: usize = 12;

// A signed number's two's complement.
pub fn bits(z: i64) -> u64
    ensures { result ≡ bits_of z }
{
    z.cast_unsigned()
}

// The fields of the struct, of any verdict with any part of a text, horizon, figures and answer at a level.
pub fn fields(
    verdict: Verdict,
    start: usize,
    end: usize,
    horizon: u64,
    figures: Figures,
    quantile: Option<u64>,
) -> [u64; FIELDS]
    ensures fields { result ≡ told_fields verdict start end horizon figures quantile }
    ensures read_back { read_signed (bits_of figures.premium) ≡ figures.premium }
{
    let (number, place) = match verdict {
        Ok(()) => (0, 0),
        Err(refused) => (u64::from(refused.why), refused.place),
    };
    let line_size = end.saturating_sub(start) as u64;
    let line_start = start as u64;
    let premium = bits(figures.premium);
    let reached = u64::from(quantile.is_some());
    let quantile = quantile.unwrap_or(0);
    [
        number,
        place,
        line_start,
        line_size,
        horizon,
        figures.truncation,
        figures.mean,
        premium,
        figures.within,
        figures.gross,
        reached,
        quantile,
    ]
}

// Fills the struct with what a call answered: on this side its fields, eight bytes each, are an array.
pub fn hand_over(answer: Result<Priced, NotPriced>, res: &mut [u64; FIELDS])
    ensures { (res.new ≡ priced_fields answer) × (read_signed (bits_of (figures_in answer).premium) ≡ (figures_in answer).premium) }
{
    *res = match answer {
        Ok(priced) => fields(
            Ok(()),
            0,
            0,
            priced.horizon,
            priced.figures,
            priced.quantile,
        ),
        Err(stop) => fields(
            Err(stop.refused),
            stop.start,
            stop.end,
            0,
            fund::no_figures(),
            None,
        ),
    };
}

// Prices the fund of a file into the five result slices, answers at a level, and fills the struct.
pub fn miguepo_price(file: &[u8], level: u64, cells: &mut Cells, res: &mut [u64; FIELDS])
    ensures same_slices { SameSlices cells.old cells.new }
    ensures hosts { HostsCells file.now (reading file.now) level (lengths cells.old) res.new cells.new }
{
    let answer = pricing::price(file, level, cells);
    hand_over(answer, res);
}

// The same of a header text and two sheets of binary64 cells, of rates and of members.
pub fn miguepo_price_sheets(
    header: &[u8],
    rates: &[u8],
    members: &[u8],
    level: u64,
    cells: &mut Cells,
    res: &mut [u64; FIELDS],
)
    ensures same_slices { SameSlices cells.old cells.new }
    ensures hosts { HostsCells header.now (sheet_reading header.now rates.now members.now) level (lengths cells.old) res.new cells.new }
{
    let answer = pricing::price_sheets(header, rates, members, level, cells);
    hand_over(answer, res);
}
