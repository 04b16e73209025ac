// The listing of a comparison, from two fund files to its bytes.
#![tactic(auto)]

ghost use Rattle.std.specs.Prelude.{◌≡◌, [], ◌∷◌, ◌++◌, ◌+◌, ◌*◌, ◌≤◌, length, take};
ghost use Rattle.fund.specs.Listing.{joined};
ghost use Rattle.writing.specs.Writing.{Puts, Written};
ghost use Rattle.comparison_printing.specs.Lines.{figure_lines, nothing_else, other_header, other_member, other_lines, interval_lines, move_lines};
ghost use Rattle.comparison_printing.specs.Printed.{priced_lines, listing_of, PrintsComparison};

use comparison::{Compared, Comparison};
use fund::{Cells, Figures, Fund};
use moves::{Differences, MemberLine, Move};
use pricing::{NotPriced, Priced};
use writing::{Pointed, Printed, Text};

// Bytes enough for the listing of every comparison.
pub const ROOM: usize = 512;

// Cells enough for every horizon.
const CELLS: usize = Fund::MOST_HORIZON as usize + 1;

// The digits behind the point of units of 10^-12, and of centimes.
const UNITS: u8 = 12;

const CENTIMES: u8 = 2;

// Puts a line with the two ends of an interval.
fn put_interval<N: Printed>(key: &[u8], least: N, most: N, text: &mut Text<'_>)
    ensures { Puts text.old (key.now ++ joined (N.output least) (N.output most ∷ [])) text.new }
{
    text.key(key);
    text.figure(least, b',');
    text.figure(most, b'\n');
}

// Puts the lines of a fund that is accepted.
fn put_figures(name: &[u8], figures: Figures, text: &mut Text<'_>)
    ensures puts { Puts text.old (figure_lines name.now figures) text.new }
    ensures in_room { length (figure_lines name.now figures) ≤ 3 * length name.now + 87 }
{
    text.key(name);
    text.line(b"premium=", Pointed::<UNITS, i64>(figures.premium));
    text.key(name);
    text.line(b"within=", Pointed::<UNITS, u64>(figures.within));
    text.key(name);
    text.line(b"gross=", Pointed::<CENTIMES, u64>(figures.gross));
}

// Puts the lines of a fund.
fn put_fund(name: &[u8], priced: Result<Priced, NotPriced>, text: &mut Text<'_>)
    ensures puts { Puts text.old (priced_lines name.now priced) text.new }
    ensures in_room { length (priced_lines name.now priced) ≤ 3 * length name.now + 87 }
{
    match priced {
        Ok(priced) => put_figures(name, priced.figures, text),
        Err(stop) => {
            text.key(name);
            stop.refused.print(text);
        }
    }
}

fn is_nothing(differences: Differences) -> bool
    ensures { result ≡ nothing_else differences }
{
    differences.header.is_none() && differences.member.is_none()
}

fn put_other_header(header: Option<u64>, text: &mut Text<'_>)
    ensures puts { Puts text.old (other_header header) text.new }
    ensures in_room { length (other_header header) ≤ 34 }
{
    if let Some(line) = header {
        text.line(b"other=header,", line);
    }
}

fn put_other_member(member: Option<MemberLine>, text: &mut Text<'_>)
    ensures puts { Puts text.old (other_member member) text.new }
    ensures in_room { length (other_member member) ≤ 76 }
{
    let Some(line) = member else {
        return;
    };
    text.key(b"other=member,");
    text.figure(line.member, b',');
    text.figure(line.old_line, b',');
    text.figure(line.new_line, b'\n');
}

// Puts the lines of what differs beside the editions and the rate lines.
fn put_other(differences: Differences, text: &mut Text<'_>)
    ensures puts { Puts text.old (other_lines differences) text.new }
    ensures in_room { length (other_lines differences) ≤ 110 }
{
    if is_nothing(differences) {
        return text.key(b"other=none\n");
    }
    put_other_header(differences.header, text);
    put_other_member(differences.member, text);
}

// Puts the lines of the intervals, in which the exact moves lie.
fn put_intervals(rates_alone: bool, m: Move, text: &mut Text<'_>)
    ensures puts { Puts text.old (interval_lines rates_alone m) text.new }
    ensures in_room { length (interval_lines rates_alone m) ≤ 139 }
{
    let key: &[u8] = if rates_alone { b"rates=" } else { b"exact=" };
    put_interval(
        key,
        Pointed::<UNITS, i64>(m.least),
        Pointed::<UNITS, i64>(m.most),
        text,
    );
    text.line(b"gross-move=", Pointed::<CENTIMES, i64>(m.gross));
    text.key(b"gross-");
    put_interval(
        key,
        Pointed::<CENTIMES, i64>(m.gross_least),
        Pointed::<CENTIMES, i64>(m.gross_most),
        text,
    );
}

// Puts the lines of the move and of what differs beside the rates, where both funds are accepted.
fn put_comparison(comparison: Option<Comparison>, text: &mut Text<'_>)
    ensures puts { Puts text.old (move_lines comparison) text.new }
    ensures in_room { length (move_lines comparison) ≤ 309 }
{
    let Some(Comparison { moved, differences }) = comparison else {
        return;
    };
    text.line(b"move=", Pointed::<UNITS, i64>(moved.premium));
    text.line(b"arithmetic=", Pointed::<UNITS, u64>(moved.arithmetic));
    put_intervals(is_nothing(differences), moved, text);
    put_other(differences, text);
}

// Writes the listing of a comparison from the start of the text, and returns its size. Where the text is too short for every such listing, it writes
// nothing.
fn listing(compared: Compared, text: &mut [u8]) -> usize
    ensures { Written (listing_of compared (length text.old)) text.old text.new result }
{
    if text.len() < ROOM {
        return 0;
    }
    let mut lines = Text {
        bytes: text,
        next: 0,
    };
    put_fund(b"old-", compared.old, &mut lines);
    put_fund(b"new-", compared.new, &mut lines);
    put_comparison(compared.comparison, &mut lines);
    lines.next
}

// Compares two fund files and writes the listing from the start of the text; returns its size. A text that has no room for every such listing is left as it
// is. No listing shows an answer at a level.
pub fn print(old: &[u8], new: &[u8], text: &mut [u8]) -> usize
    ensures prints_comparison { PrintsComparison old.now new.now text.old text.new result }
    ensures upper_bound { (result ≤ length text.new) × (result ≡ length (take result text.new)) }
{
    let mut old_transform = [0i64; CELLS];
    let mut old_h = [0u64; CELLS];
    let mut old_f = [0i64; CELLS];
    let mut old_r = [0u64; CELLS];
    let mut old_sums = [0i64; CELLS];
    let mut new_transform = [0i64; CELLS];
    let mut new_h = [0u64; CELLS];
    let mut new_f = [0i64; CELLS];
    let mut new_r = [0u64; CELLS];
    let mut new_sums = [0i64; CELLS];
    let mut old_cells = Cells::new(
        &mut old_transform,
        &mut old_h,
        &mut old_f,
        &mut old_r,
        &mut old_sums,
    );
    let mut new_cells = Cells::new(
        &mut new_transform,
        &mut new_h,
        &mut new_f,
        &mut new_r,
        &mut new_sums,
    );
    let compared = comparison::compare(old, new, 0, &mut old_cells, &mut new_cells);
    listing(compared, text)
}
