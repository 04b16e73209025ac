// The rows behind the header, line by line.
ghost use Rattle.std.specs.Prelude.{◌≡◌, []};
ghost use Rattle.reader.specs.Rows.{ReadsRows};

use fund::{Refusal, Refused};
use lines::Row;
use rows::RowsSoFar;

// Adds every row from the line that starts at `start` on, up to `end=`, behind which there is nothing.
#[inline(never)]
pub(crate) fn add_rows(rows: &mut RowsSoFar, file: &[u8], start: usize) -> Result<(), Refused>
    requires { (rows.old.rates.items ≡ []) × (rows.old.members.items ≡ []) }
    ensures { ReadsRows file.now start rows.new.rates.items rows.new.members.items result }
{
    let mut at = start;
    while let Some((row, next)) = lines::row_at(file, at) {
        match row {
            Row::Rate(r) => {
                if 0 < rows.members_read() {
                    return Err(Refusal::Form.at(rows.line()));
                }
                rows.add_rate(r)?;
            }
            Row::Member(m) => rows.add_member(m)?,
            Row::End(count) => {
                if count != rows.members_read() as u64 {
                    return Err(Refusal::Range.at(rows.line()));
                }
                if next < file.len() {
                    return Err(Refusal::Form.at(rows.line() + 1));
                }
                return Ok(());
            }
        }
        at = next;
    }
    Err(Refusal::Form.at(rows.line()))
}
