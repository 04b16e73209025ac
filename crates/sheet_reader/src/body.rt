// The rows of both sheets in their order, rate rows first.
ghost use Rattle.std.specs.Prelude.{◌≡◌, [], ◌+◌, length};
ghost use Rattle.fund.specs.declared.Refusal.TheVariants.{Cell as CellRefusal};
ghost use Rattle.sheet_reader.specs.Rows.{ReadsRows};

use fund::{Fund, Refusal, Refused};
use rows::RowsSoFar;

// The next row is not taken, at its place.
fn not_taken(rows: &RowsSoFar) -> Refused
    ensures { result ≡ record { why = CellRefusal; place = length rows.now.rates.items + length rows.now.members.items + 1 } }
{
    Refusal::Cell.at(rows.place())
}

// Adds every row of both sheets: a row that is not taken or cut short is refused at its place.
pub(crate) fn add_rows(rows: &mut RowsSoFar, rates: &[u8], members: &[u8]) -> Result<(), Refused>
    requires { (rows.old.rates.items ≡ []) × (rows.old.members.items ≡ []) }
    ensures { ReadsRows rates.now members.now rows.new.rates.items rows.new.members.items result }
{
    for rate in rates.chunks(Fund::RATE_WIDTH) {
        let Some(r) = sheet_cells::rate_row(rate) else {
            return Err(not_taken(rows));
        };
        rows.add_rate(r)?;
    }
    for member in members.chunks(Fund::MEMBER_WIDTH) {
        let Some(m) = sheet_cells::member_row(member) else {
            return Err(not_taken(rows));
        };
        rows.add_member(m)?;
    }
    Ok(())
}
