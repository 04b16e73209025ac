// The calls that the pricing call is made of, each a public call of its own: what it gives is its definition's, for every input.
ghost use Rattle.std.specs.Prelude.{◌≡◌, false, [], min, ◌+◌, length, drop};
ghost use Rattle.fund.specs.Base.{sum};
ghost use Rattle.fund.specs.Cells.{lengths, SameSlices};
ghost use Rattle.fund.specs.Limits.{limits, most_load};
ghost use Rattle.fund.specs.Recursion.{alternating, c};
ghost use Rattle.fund.specs.Spelling.{behind};
ghost use Rattle.fund.specs.Reading.{reading};
ghost use Rattle.fund.specs.Quantile.{quantile};
ghost use Rattle.fund.specs.Answer.{part, refused};
ghost use Rattle.spelling.specs.Text.{before, behind_if, level_in, NumbersOf};
ghost use Rattle.rows.specs.Read.{file_read};
ghost use Rattle.lines.specs.Row.{RowIs};
ghost use Rattle.lines.specs.Part.{Spans};
ghost use Rattle.matching.specs.Matching.{matched_rows};
ghost use Rattle.recursion.specs.Recursion.{left_cells, recursion};
ghost use Rattle.recursion_limits.specs.Tests.{cell_of, tested};
ghost use Rattle.tariff.specs.Gross.{gross_of};
ghost use Rattle.whole.specs.Sign.{signed};
ghost use Rattle.totals.specs.Totals.{TotalsFor};
ghost use Rattle.transform.specs.Transformed.{lengths_of};
ghost use Rattle.valuation.specs.Valued.{left_valued, valuation};
ghost use Rattle.answer_text.specs.Shown.{shown_answer, listing_of};
ghost use Rattle.answer_text.specs.Level.{level_line_of};
ghost use Rattle.writing.specs.Writing.{Written};
ghost use Rattle.claims.specs.Steps.{TestsTotals, Transforms};

use arrayvec::ArrayVec;
use fund::{Cells, Figures, Fund, ModelPoint, Refused, Verdict};
use lines::Row;
use recursion::{Broken, Start, Transform};
use rows::{FileRead, Rows};
use start::StartSum;
use std::ops::Range;
use totals::Totals;
use transform::NotTransformed;

// The named constants are the definitions' limits.
pub fn claimed_limits() -> [u64; 31]
    ensures { result ≡ limits }
{
    Fund::limits()
}

// The place of a byte in a text from a place on, or the end.
pub fn claimed_find(text: &[u8], byte: u8, from: usize) -> usize
    ensures { result ≡ from + before byte (drop from text.now) }
{
    spelling::find(text, byte, from)
}

// Whether a key begins a text.
pub fn claimed_begins(text: &[u8], key: &[u8]) -> bool
    ensures { behind key.now text.now ≡ behind_if result (length key.now) text.now }
{
    spelling::begins(text, key)
}

// The numbers between commas of a text, where there are just so many.
pub fn claimed_numbers(text: &[u8], count: usize) -> Option<[u64; 5]>
    ensures { NumbersOf count text.now result }
{
    spelling::numbers_of(text, count)
}

// The level that an argument spells; of one that spells none, none.
pub fn claimed_argument(text: &[u8]) -> Option<u64>
    ensures { result ≡ level_in text.now }
{
    spelling::level_of(text)
}

// Refusals 1 and 2, or the header and the rows.
pub fn claimed_read(file: &[u8]) -> Result<FileRead, Refused>
    ensures { result ≡ file_read (reading file.now) }
{
    reader::read(file)
}

// What a line behind the header says, and where the next one starts.
pub fn claimed_row(file: &[u8], at: usize) -> Option<(Row, usize)>
    ensures { RowIs file.now at result }
{
    lines::row_at(file, at)
}

// The line of a verdict.
pub fn claimed_part(file: &[u8], verdict: Verdict) -> Range<usize>
    ensures { Spans file.now (part file.now verdict) result.start result.end }
{
    lines::part_of(file, verdict)
}

// Refusals 3 to 6, or the model points.
pub fn claimed_match(rows: Rows<'_>) -> Result<ArrayVec<ModelPoint, { Fund::MEMBER_ROWS }>, Refused>
    ensures { result ≡ matched_rows rows.entry }
{
    matching::matched(rows)
}

// The sums that f(0) and R(0) start from, of a lambda up to the largest load.
pub fn claimed_start(lambda: u64) -> StartSum
    ensures { (signed result.sum.negative result.sum.size ≡ alternating (min lambda most_load))
        × (result.sum.size ≡ 0 → result.sum.negative ≡ false)
        × (result.bound ≡ sum 64 (c (min lambda most_load))) }
{
    start::sums(lambda)
}

// The load, the truncation figure, the mean and the start of a table of model points; of one outside its ranges none.
pub fn claimed_totals(fund: Fund, points: &[ModelPoint]) -> Option<Totals>
    ensures { TotalsFor fund (length points.now) points.now result }
{
    totals::first_totals(fund, points)
}

// The ranges and refusals 7, 8 and 9, from the totals and the lengths of the slices.
pub fn claimed_tests(
    fund: Fund,
    totals: Option<Totals>,
    transform: usize,
    h: usize,
    f: usize,
    r: usize,
    sums: usize,
) -> Result<Totals, Refused>
    ensures { TestsTotals fund totals (record { D = transform; H = h; f = f; R = r; F = sums }) result }
{
    totals::tested_totals(fund, totals, transform, h, f, r, sums)
}

// Refusals 7, 8 and 9, or D and H of a table of model points; and their totals. f, r and sums are the lengths of the other three slices.
pub fn claimed_transform(
    fund: Fund,
    points: &[ModelPoint],
    f: usize,
    r: usize,
    sums: usize,
    transform: &mut [i64],
    h: &mut [u64],
) -> Result<Totals, NotTransformed>
    ensures { Transforms fund points.now (lengths_of transform.old h.old f r sums) result transform.new h.new }
{
    transform::transformed(fund, points, f, r, sums, transform, h)
}

// Refusals 7 to 10, or the figures and the cells.
pub fn claimed_value(
    fund: Fund,
    points: &[ModelPoint],
    cells: &mut Cells,
) -> Result<Figures, Refused>
    ensures same_slices { SameSlices cells.old cells.new }
    ensures left { left_valued result cells.new ≡ valuation fund (length points.now) points.now (lengths cells.old) }
{
    valuation::value(fund, points, cells)
}

// A verdict with zeros for every figure and in all slices.
pub fn claimed_refusal(verdict: Verdict, cells: &mut Cells) -> Result<Figures, Refused>
    ensures same_slices { SameSlices cells.old cells.new }
    ensures left { left_valued result cells.new ≡ refused [] (lengths cells.old) verdict }
{
    cells.clear();
    match verdict {
        Ok(()) => Ok(fund::no_figures()),
        Err(stop) => Err(stop),
    }
}

// The first place up to the horizon where the sums reach the level, or none.
pub fn claimed_quantile(level: u64, horizon: usize, sums: &[i64]) -> Option<u64>
    ensures { result ≡ quantile level horizon sums.now }
{
    quantile::quantile(level, horizon, sums)
}

// The gross premium of any terms, premium and bound; of a worth outside its range none.
pub fn claimed_gross(fund: Fund, premium: i64, within: u64) -> Option<u64>
    ensures { result ≡ gross_of fund premium within }
{
    tariff::gross_premium(fund, premium, within)
}

// Whether a transform, a start and slices keep the limits of the recursion.
pub fn claimed_kept(
    t: Transform<'_>,
    start: Start,
    cells: usize,
    bounds: usize,
) -> Result<(), Broken>
    ensures { result ≡ tested t.entry.horizon t.entry.d.now t.entry.h.now (cell_of start) cells bounds }
{
    recursion_limits::tested(t, start, cells, bounds)
}

// The recursion on any transform and start.
pub fn claimed_recursion(
    t: Transform<'_>,
    start: Start,
    f: &mut [i64],
    r: &mut [u64],
) -> Result<(), Broken>
    ensures { left_cells result f.new r.new ≡
        recursion t.entry.horizon t.entry.d.now t.entry.h.now (cell_of start) (length f.old) (length r.old) }
{
    recursion::recursion(t, start, f, r)
}

// The line of an answer at a level.
pub fn claimed_level_line(verdict: Verdict, quantile: Option<u64>, text: &mut [u8]) -> usize
    ensures { Written (level_line_of verdict quantile (length text.old)) text.old text.new result }
{
    answer_text::level_line(verdict, quantile, text)
}

// The text of an answer.
pub fn claimed_listing(
    verdict: Verdict,
    figures: Figures,
    horizon: usize,
    f: &[i64],
    r: &[u64],
    sums: &[i64],
    text: &mut [u8],
) -> usize
    ensures { Written (listing_of (shown_answer verdict figures f.now r.now sums.now) horizon (length text.old))
        text.old text.new result }
{
    answer_text::listing(verdict, figures, horizon, f, r, sums, text)
}
