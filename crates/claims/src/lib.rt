// What a customer may hold us to. Each function makes one public call and promises, in the plain words of specs/, what follows from
// that call's contract alone; how near a listing and a line at a level are to the exact figures follows from the theorem over the
// definitions. So a clause that is dropped from a contract fails here, where specs/ says it in words of its own; nothing stands on these words.

#![tactic(auto)]

mod comparing;
mod reading;
mod sheets;
mod steps;

ghost use Rattle.std.specs.Prelude.{◌≡◌};
ghost use Rattle.fund.specs.Reading.{FundFile, Reading, read, reading};
ghost use Rattle.laws.specs.Ranges.{FundOk};
ghost use Rattle.rows.specs.Read.{file_read};
ghost use Rattle.fund.specs.Cells.{lengths, SameSlices};
ghost use Rattle.claims.specs.Demands.{Demands};
ghost use Rattle.claims.specs.Listing.{Prints, PrintsRead, PrintsFile};
ghost use Rattle.pricing.specs.Priced.{found_in};
ghost use Rattle.claims.specs.Calls.{bytes_between, handed, priced, ResultStruct, hosted_cells};
ghost use Rattle.claims.specs.WrittenOut.{PricedWrittenOut};

use fund::{Cells, Refused};
use fund_printing::{Asked, PrintedInput};
use input::{ReadFailed, Source};
use pricing::{NotPriced, Priced};
use rows::{FileRead, Rows};
use std::io::{Empty, Read};

// Demands 1, 2 and 3 of the pricing call, what its answer at the level says, and that a file is priced as the file with its member lines written out.
pub fn claimed_price(file: &[u8], level: u64, cells: &mut Cells) -> Result<Priced, NotPriced>
    ensures same_slices { SameSlices cells.old cells.new }
    ensures demands { Demands file.now (reading file.now) level
        (lengths cells.old)
        (priced file.now result cells.new) }
    ensures priced_written_out { PricedWrittenOut file.now level
        (lengths cells.old)
        (priced file.now result cells.new) }
{
    pricing::price(file, level, cells)
}

// The same of what was read of a text, where the funds that a reading gives are in their ranges.
pub fn claimed_price_read(
    text: &[u8],
    found: Result<Rows<'_>, Refused>,
    level: u64,
    cells: &mut Cells,
) -> Result<Priced, NotPriced>
    ensures same_slices { SameSlices cells.old cells.new }
    ensures demands { ((fund : FundFile) → found_in found.entry ≡ read fund → FundOk fund) → Demands text.now (found_in found.entry) level
        (lengths cells.old)
        (priced text.now result cells.new) }
{
    pricing::price_read(text, found, level, cells)
}

// What was read, as rows: those of the reading.
pub fn claimed_rows(found: &Result<FileRead, Refused>) -> Result<Rows<'_>, Refused>
    ensures { (x : Reading) → found.now ≡ file_read x → found_in result ≡ x }
{
    pricing::rows_of(found)
}

// The bytes of a text from any start to any end.
pub fn claimed_line_between<'a>(file: &'a [u8], start: usize, end: usize) -> &'a [u8]
    ensures { result.now ≡ bytes_between file.now start end }
{
    pricing::line_between(file, start, end)
}

// The line that the host is handed is that of the outcome.
pub fn claimed_line<'a>(file: &'a [u8], answer: Result<Priced, NotPriced>) -> &'a [u8]
    ensures { result.now ≡ handed file.now answer }
{
    pricing::line(file, answer)
}

// The same of the call for C, and each field of its struct.
pub fn claimed_host(file: &[u8], level: u64, cells: &mut Cells, res: &mut [u64; miguepo::FIELDS])
    ensures same_slices { SameSlices cells.old cells.new }
    ensures demands { Demands file.now (reading file.now) level
        (lengths cells.old)
        (hosted_cells file.now res.new cells.new) }
    ensures priced_written_out { PricedWrittenOut file.now level
        (lengths cells.old)
        (hosted_cells file.now res.new cells.new) }
    ensures result_struct { ResultStruct file.now res.new
        (hosted_cells file.now res.new cells.new) }
{
    miguepo::miguepo_price(file, level, cells, res);
}

// What is asked of a file: its listing, or the line of its answer at a level.
pub fn claimed_print(asked: Asked, file: &[u8], text: &mut [u8]) -> usize
    ensures { Prints asked file.now text.old text.new result }
{
    fund_printing::print(asked, file, text)
}

// The same of standard input.
pub fn claimed_input<R: Read + Drop>(
    asked: Asked,
    reader: R,
    buffer: &mut [u8],
    text: &mut [u8],
) -> Result<PrintedInput, ReadFailed>
    ensures { PrintsRead (Prints asked) buffer.new text.old text.new result }
{
    fund_printing::print_input(asked, reader, buffer, text)
}

// The same of a file in memory, which is read as standard input is.
pub fn claimed_memory(
    asked: Asked,
    file: &[u8],
    pieces: &[u32],
    buffer: &mut [u8],
    text: &mut [u8],
) -> Result<PrintedInput, ReadFailed>
    ensures { PrintsFile (Prints asked) file.now pieces.now buffer.new text.old text.new result }
{
    fund_printing::print_source(asked, Source::<Empty>::memory(), file, pieces, buffer, text)
}
