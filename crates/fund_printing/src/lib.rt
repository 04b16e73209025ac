// From a fund file's bytes, from standard input, or from a header text and two sheets, to the bytes of what is asked of the fund: its listing, or the
// line of its answer at a level.

#![tactic(auto)]

mod sheets;

ghost use Rattle.std.specs.Prelude.{◌≡◌, ◌≤◌, IfOk, length, take};
ghost use Rattle.writing.specs.Writing.{Written};
ghost use Rattle.answer_text.specs.Level.{level_line_of};
ghost use Rattle.pricing.specs.Priced.{verdict_in, quantile_told};
ghost use Rattle.fund_printing.specs.declared.Asked.TheVariants.{Listing};
ghost use Rattle.fund_printing.specs.Printed.{level_in, text_of, shown};
ghost use Rattle.fund_printing.specs.Input.{HoldsFirst, ReadFirst, ShowsFirst, ShowsInput, PrintsMemory};
ghost use Rattle.input.specs.Input.{InMemory};

use fund::{Cells, Fund};
use input::{ReadFailed, Source};
use pricing::{NotPriced, Priced};
pub use sheets::print_sheets;
use std::io::Read;

// Cells enough for every horizon.
pub(crate) const CELLS: usize = Fund::MOST_HORIZON as usize + 1;

// No more bytes of a file are read than these.
pub const MOST_BYTES: usize = 65536;

// What is asked of a fund: its listing, or its answer at a level.
#[derive(Clone, Copy)]
pub enum Asked {
    Listing,
    AtLevel(u64),
}

// How many bytes were read, and the size of what was printed of them.
#[derive(Clone, Copy, Debug, PartialEq, Eq)]
pub struct PrintedInput {
    pub read: usize,
    pub size: usize,
}

impl Asked {
    // No listing shows an answer at a level.
    fn level(self) -> u64
        ensures { result ≡ level_in self }
    {
        match self {
            Asked::Listing => 0,
            Asked::AtLevel(level) => level,
        }
    }
}

// Writes the listing of an answer from the start of the text; returns its size.
fn write_listing(answer: Result<Priced, NotPriced>, cells: &Cells<'_>, text: &mut [u8]) -> usize
    ensures { Written (text_of Listing answer cells.now (length text.old)) text.old text.new result }
{
    let f = &cells.f[..];
    let r = &cells.r[..];
    let sums = &cells.sums[..];
    match answer {
        Ok(priced) => {
            let horizon = priced.horizon as usize;
            answer_text::listing(Ok(()), priced.figures, horizon, f, r, sums, text)
        }
        Err(stop) => {
            answer_text::listing(Err(stop.refused), fund::no_figures(), 0, f, r, sums, text)
        }
    }
}

// Writes the line of an answer at a level from the start of the text; returns its size.
fn write_level(answer: Result<Priced, NotPriced>, text: &mut [u8]) -> usize
    ensures { Written (level_line_of (verdict_in answer) (quantile_told answer) (length text.old)) text.old text.new result }
{
    match answer {
        Ok(priced) => answer_text::level_line(Ok(()), priced.quantile, text),
        Err(stop) => answer_text::level_line(Err(stop.refused), None, text),
    }
}

// Writes what is asked of an answer from the start of the text; returns its size.
pub(crate) fn write_asked(
    asked: Asked,
    answer: Result<Priced, NotPriced>,
    cells: &Cells<'_>,
    text: &mut [u8],
) -> usize
    ensures { Written (text_of asked answer cells.now (length text.old)) text.old text.new result }
{
    match asked {
        Asked::Listing => write_listing(answer, cells, text),
        Asked::AtLevel(_) => write_level(answer, text),
    }
}

// Prices the fund of a file and writes what is asked from the start of the text; returns its size. A text that has no room for every such answer is left
// as it is.
pub fn print(asked: Asked, file: &[u8], text: &mut [u8]) -> usize
    ensures written { Written (shown asked file.now (length text.old)) text.old text.new result }
    ensures upper_bound { (result ≤ length text.new) × (result ≡ length (take result text.new)) }
{
    let mut transform = [0i64; CELLS];
    let mut h = [0u64; CELLS];
    let mut f = [0i64; CELLS];
    let mut r = [0u64; CELLS];
    let mut sums = [0i64; CELLS];
    let mut cells = Cells::new(&mut transform, &mut h, &mut f, &mut r, &mut sums);
    let answer = pricing::price(file, asked.level(), &mut cells);
    write_asked(asked, answer, &cells, text)
}

// The same of a file of which the first `size` bytes of the buffer are the first ones, as many as the buffer has room for.
fn print_first(asked: Asked, buffer: &[u8], size: usize, text: &mut [u8]) -> usize
    requires { HoldsFirst buffer.now size }
    ensures shows_first { ShowsFirst (shown asked) buffer.now size text.old text.new result }
    ensures upper_bound { (result ≤ length text.new) × (result ≡ length (take result text.new)) }
{
    print(asked, &buffer[..size], text)
}

// Reads into a buffer that has room for all that is read of a file; it fails where a read does, or where the buffer has no such room.
fn read_first<R: Read + Drop>(
    source: Source<R>,
    file: &[u8],
    pieces: &[u32],
    buffer: &mut [u8],
) -> Result<usize, ReadFailed>
    ensures { ReadFirst source file.now pieces.now buffer.old buffer.new result }
{
    let size = input::read_source(source, file, pieces, buffer)?;
    if buffer.len() < MOST_BYTES {
        return Err(ReadFailed { size });
    }
    Ok(size)
}

// What is asked of the fund that a source gives, which is read into the buffer.
pub fn print_source<R: Read + Drop>(
    asked: Asked,
    source: Source<R>,
    file: &[u8],
    pieces: &[u32],
    buffer: &mut [u8],
    text: &mut [u8],
) -> Result<PrintedInput, ReadFailed>
    ensures shows_input { ShowsInput (shown asked) buffer.new text.old text.new result }
    ensures prints_memory { InMemory source → PrintsMemory file.now pieces.now buffer.new result }
    ensures size_in_bounds { IfOk result (λ p. (p.size ≤ length text.new) × (p.size ≡ length (take p.size text.new))) }
{
    let read = read_first(source, file, pieces, buffer)?;
    let size = print_first(asked, &buffer[..], read, text);
    Ok(PrintedInput { read, size })
}

// What is asked of the fund of the file on standard input, which the reader reads.
pub fn print_input<R: Read + Drop>(
    asked: Asked,
    reader: R,
    buffer: &mut [u8],
    text: &mut [u8],
) -> Result<PrintedInput, ReadFailed>
    ensures shows_input { ShowsInput (shown asked) buffer.new text.old text.new result }
    ensures size_in_bounds { IfOk result (λ p. (p.size ≤ length text.new) × (p.size ≡ length (take p.size text.new))) }
{
    print_source(
        asked,
        Source::descriptor(Some(reader)),
        b"",
        &[1u32],
        buffer,
        text,
    )
}
