// From a header text and two sheets of binary64 cells to a fund's header, rate rows and member rows, or the refusal and its place.

#![tactic(auto)]

mod body;

ghost use Rattle.std.specs.Prelude.{◌≡◌};
ghost use Rattle.fund.specs.Sheets.{sheet_reading};
ghost use Rattle.rows.specs.Read.{file_read};

use fund::{Fund, Refusal, Refused};
use rows::{FileRead, RowsSoFar};

// Reads the lines of the header text, then the rows of both sheets. Bytes behind the last header line are form at their line.
#[inline(never)]
pub fn read(header: &[u8], rates: &[u8], members: &[u8]) -> Result<FileRead, Refused>
    ensures { result ≡ file_read (sheet_reading header.now rates.now members.now) }
{
    let (fund, end) = lines::read_header(header)?;
    if end < header.len() {
        return Err(Refusal::Form.at(Fund::HEADER_LINES as u64 + 1));
    }
    let mut rows = RowsSoFar::new();
    body::add_rows(&mut rows, rates, members)?;
    Ok(rows.read(fund))
}
