// The calls on a header text and two sheets of binary64 cells, and the calls that these are made of.
ghost use Rattle.std.specs.Prelude.{◌≡◌};
ghost use Rattle.fund.specs.Reading.{stopped, between};
ghost use Rattle.fund.specs.SheetCells.{rate_row_of, member_row_of};
ghost use Rattle.fund.specs.Sheets.{sheet_reading};
ghost use Rattle.fund.specs.Cells.{lengths, SameSlices};
ghost use Rattle.lines.specs.Header.{HeaderRead};
ghost use Rattle.rows.specs.Rows.{rate_fits, member_fits};
ghost use Rattle.rows.specs.Read.{file_read};
ghost use Rattle.claims.specs.Demands.{Demands};
ghost use Rattle.claims.specs.Listing.{PrintsAsked};
ghost use Rattle.claims.specs.Calls.{priced, ResultStruct, hosted_cells};
ghost use Rattle.claims.specs.Sheets.{PricedAsFile};

use fund::{Cells, Fund, Member, Rate, Refusal, Refused};
use fund_printing::Asked;
use pricing::{NotPriced, Priced};
use rows::FileRead;

// Demands 1, 2 and 3 of the pricing call on sheets, what its answer at the level says, and that sheets that are taken are priced as the file
// with the same rows.
pub fn claimed_sheets(
    header: &[u8],
    rates: &[u8],
    members: &[u8],
    level: u64,
    cells: &mut Cells,
) -> Result<Priced, NotPriced>
    ensures same_slices { SameSlices cells.old cells.new }
    ensures demands { Demands header.now (sheet_reading header.now rates.now members.now) level
        (lengths cells.old)
        (priced header.now result cells.new) }
    ensures priced_as_file { PricedAsFile header.now rates.now members.now level
        (lengths cells.old)
        (priced header.now result cells.new) }
{
    pricing::price_sheets(header, rates, members, level, cells)
}

// The same of the call for C.
pub fn claimed_host_sheets(
    header: &[u8],
    rates: &[u8],
    members: &[u8],
    level: u64,
    cells: &mut Cells,
    res: &mut [u64; miguepo::FIELDS],
)
    ensures same_slices { SameSlices cells.old cells.new }
    ensures demands { Demands header.now (sheet_reading header.now rates.now members.now) level
        (lengths cells.old)
        (hosted_cells header.now res.new cells.new) }
    ensures priced_as_file { PricedAsFile header.now rates.now members.now level
        (lengths cells.old)
        (hosted_cells header.now res.new cells.new) }
    ensures result_struct { ResultStruct header.now res.new
        (hosted_cells header.now res.new cells.new) }
{
    miguepo::miguepo_price_sheets(header, rates, members, level, cells, res);
}

// What is asked of sheets: their listing, or the line of their answer at a level.
pub fn claimed_print_sheets(
    asked: Asked,
    header: &[u8],
    rates: &[u8],
    members: &[u8],
    text: &mut [u8],
) -> usize
    ensures { PrintsAsked asked header.now (sheet_reading header.now rates.now members.now)
        text.old text.new result }
{
    fund_printing::print_sheets(asked, header, rates, members, text)
}

// Refusals 1, 2 and 11, or the header and the rows.
pub fn claimed_read_sheets(header: &[u8], rates: &[u8], members: &[u8]) -> Result<FileRead, Refused>
    ensures { result ≡ file_read (sheet_reading header.now rates.now members.now) }
{
    sheet_reader::read(header, rates, members)
}

// The header's figures and the lines behind it, or its refusal, whatever follows it.
pub fn claimed_header(text: &[u8]) -> Result<(Fund, usize), Refused>
    ensures { HeaderRead text.now result }
{
    lines::read_header(text)
}

// What is read of a file that is refused.
pub fn claimed_without_rows(why: Refusal, place: u64) -> Result<FileRead, Refused>
    ensures { result ≡ file_read (stopped why place) }
{
    Err(why.at(place))
}

// Whether a number is from the least to the most.
pub fn claimed_within(least: u64, most: u64, n: u64) -> bool
    ensures { result ≡ between least most n }
{
    rows::within(least, most, n)
}

// Whether a rate row is in range behind so many others and from a least age on.
pub fn claimed_rate_in_range(rated: usize, least: u64, r: Rate) -> bool
    ensures { result ≡ rate_fits rated least r }
{
    rows::rate_in_range(rated, least, r)
}

// Whether a member row is in range behind so many others with so many lives.
pub fn claimed_member_in_range(enrolled: usize, lives: u64, m: Member) -> bool
    ensures { result ≡ member_fits enrolled lives m }
{
    rows::member_in_range(enrolled, lives, m)
}

// A row of the rates' sheet, from its bytes.
pub fn claimed_rate_row(row: &[u8]) -> Option<Rate>
    ensures { result ≡ rate_row_of row.now }
{
    sheet_cells::rate_row(row)
}

// A row of the members' sheet.
pub fn claimed_member_row(row: &[u8]) -> Option<Member>
    ensures { result ≡ member_row_of row.now }
{
    sheet_cells::member_row(row)
}
