// The bytes of a listing, and of the line of an answer at a level.
#![tactic(auto)]

ghost use Rattle.std.specs.Prelude.{◌≡◌, ◌≤◌, ◌*◌, length};
ghost use Rattle.fund.specs.Listing.{cell_lines};
ghost use Rattle.writing.specs.Writing.{Puts, Written};
ghost use Rattle.answer_text.specs.Pieces.{cell_text, head, foot, accepted_lines, PrintableCells};
ghost use Rattle.answer_text.specs.Shown.{most_cell_line, room, shown_answer, bounded, printable, listing_of};
ghost use Rattle.answer_text.specs.Level.{quantile_line, level_line_of};

use fund::{Figures, Fund, Verdict};
use writing::{Printed, Text};

// Bytes enough for every listing.
pub const ROOM: usize = 299150;

// Bytes enough for the line of every answer at a level.
pub const LEVEL_ROOM: usize = 64;

// Writes the listing of the figures from the start of the text, and returns its size. Where a figure is out of range or the
// text is too short, it writes nothing.
pub fn listing(
    verdict: Verdict,
    figures: Figures,
    horizon: usize,
    f: &[i64],
    r: &[u64],
    sums: &[i64],
    text: &mut [u8],
) -> usize
    ensures { Written
        (listing_of (shown_answer verdict figures f.now r.now sums.now) horizon (length text.old))
        text.old text.new result }
{
    if !printable(figures.truncation, horizon, f, r, sums, text.len()) {
        return 0;
    }
    let accepted = Accepted {
        figures,
        f,
        r,
        sums,
        count: horizon + 1,
    };
    match verdict {
        Ok(()) => accepted.write(text),
        Err(refused) => writing::write(refused, text),
    }
}

// Writes the line of an answer at a level from the start of the text, and returns its size. Where the text is too short, it writes
// nothing.
pub fn level_line(verdict: Verdict, quantile: Option<u64>, text: &mut [u8]) -> usize
    ensures { Written (level_line_of verdict quantile (length text.old)) text.old text.new result }
{
    if text.len() < LEVEL_ROOM {
        return 0;
    }
    match verdict {
        Ok(()) => writing::write(AtLevel(quantile), text),
        Err(refused) => writing::write(refused, text),
    }
}

// Puts the lines before the cells.
fn put_head(figures: Figures, text: &mut Text<'_>)
    ensures { Puts text.old (head figures) text.new }
{
    text.line(b"truncation=", figures.truncation);
    text.line(b"mean=", figures.mean);
}

// Puts the lines behind the cells.
fn put_foot(figures: Figures, text: &mut Text<'_>)
    ensures { Puts text.old (foot figures) text.new }
{
    text.line(b"premium=", figures.premium);
    text.line(b"within=", figures.within);
    text.line(b"gross=", figures.gross);
}

// Puts the line of a cell: x, f(x) and its bound, F(x) and its bound.
fn put_cell(x: u64, f: i64, within: u64, sum: i64, bound: u64, text: &mut Text<'_>)
    ensures { Puts text.old (cell_text x f within sum bound) text.new }
{
    text.key(b"cell=");
    text.figure(x, b',');
    text.figure(f, b',');
    text.figure(within, b',');
    text.figure(sum, b',');
    text.figure(bound, b'\n');
}

// An accepted fund: its figures, and so many of its cells.
#[derive(Clone, Copy)]
struct Accepted<'a> {
    figures: Figures,
    f: &'a [i64],
    r: &'a [u64],
    sums: &'a [i64],
    count: usize,
    ghost in_range: { PrintableCells figures.truncation f.now r.now sums.now count },
}

impl Accepted<'_> {
    // Puts the lines of the cells. The bound of F(x) is R(0) + .. + R(x) + 2×E: each cell adds its R.
    fn put_cells(&self, text: &mut Text<'_>)
        ensures puts { Puts text.old (cell_lines self.now.figures.truncation self.now.f.now self.now.r.now self.now.sums.now 0 self.now.count) text.new }
        ensures in_room { length (cell_lines self.now.figures.truncation self.now.f.now self.now.r.now self.now.sums.now 0 self.now.count) ≤ most_cell_line * self.now.count }
    {
        let cut = 2 * self.figures.truncation;
        let mut bound = cut;
        for x in 0..self.count {
            let cell_bound = self.r[x];
            let within = cell_bound + cut;
            bound += cell_bound;
            put_cell(x as u64, self.f[x], within, self.sums[x], bound, text);
        }
    }

    // Writes its listing from the start of the bytes, and returns its size.
    fn write(self, bytes: &mut [u8]) -> usize
        ensures { room ≤ length bytes.old → Written (accepted_lines self.entry.figures self.entry.f.now self.entry.r.now self.entry.sums.now self.entry.count) bytes.old bytes.new result }
    {
        let mut text = Text { bytes, next: 0 };
        put_head(self.figures, &mut text);
        self.put_cells(&mut text);
        put_foot(self.figures, &mut text);
        text.next
    }
}

// The answer at a level, of a fund that is accepted.
#[derive(Clone, Copy)]
struct AtLevel(Option<u64>);

impl Printed for AtLevel {
    ghost output = { λ answer. quantile_line answer.0 };

    fn print(self, text: &mut Text<'_>) {
        match self.0 {
            Some(x) => text.line(b"quantile=", x),
            None => text.key(b"quantile=none\n"),
        }
    }
}

// No R(x) is above its limit.
fn all_bounded(r: &[u64]) -> bool
    ensures { result ≡ bounded r.now }
{
    r.iter().all(|bound| *bound <= Fund::MOST_BOUND)
}

// The figures of the cells are there and in range, and there is room.
fn printable(
    truncation: u64,
    horizon: usize,
    f: &[i64],
    r: &[u64],
    sums: &[i64],
    room: usize,
) -> bool
    ensures { result ≡ printable truncation horizon (length f.now) r.now (length sums.now) room }
{
    horizon as u64 <= Fund::MOST_HORIZON
        && horizon < f.len()
        && horizon < r.len()
        && horizon < sums.len()
        && truncation <= Fund::MOST_TRUNCATION
        && ROOM <= room
        && all_bounded(&r[..horizon + 1])
}
