// From a fund file's bytes to its header, rate rows and member rows, or the refusal and its line.

#![tactic(auto)]

mod body;

ghost use Rattle.std.specs.Prelude.{◌≡◌};
ghost use Rattle.fund.specs.Reading.{reading};
ghost use Rattle.rows.specs.Read.{file_read};

use fund::Refused;
use rows::{FileRead, RowsSoFar};

// Reads the header lines, then the rows behind them. The answer is made here, since a table that is handed on is copied.
#[inline(never)]
pub fn read(file: &[u8]) -> Result<FileRead, Refused>
    ensures { result ≡ file_read (reading file.now) }
{
    let (fund, start) = lines::read_header(file)?;
    let mut rows = RowsSoFar::new();
    body::add_rows(&mut rows, file, start)?;
    Ok(rows.read(fund))
}
