// A fund is answered by its listing, the line that the host is handed, the line of the answer at the level, and an empty line; of a header text with two
// sheets the line is one of the header text. A pair is answered by the listing of its comparison and an empty line.
use crate::write;
use fund::{Cells, Refused};
use fund_printing::Asked;
use rows::FileRead;
use std::io::Print;

// Slices of one cell do for the line: the refusals that have one come before short.
fn write_line(rt: &impl Print, text: &[u8], found: &Result<FileRead, Refused>) -> bool {
    let mut transform = [0i64; 1];
    let mut h = [0u64; 1];
    let mut f = [0i64; 1];
    let mut r = [0u64; 1];
    let mut sums = [0i64; 1];
    let mut cells = Cells::new(&mut transform, &mut h, &mut f, &mut r, &mut sums);
    let answer = pricing::price_read(text, pricing::rows_of(found), 0, &mut cells);
    write(rt, b"line=") && write(rt, pricing::line(text, answer)) && write(rt, b"\n")
}

fn write_of_file(rt: &impl Print, asked: Asked, file: &[u8]) -> bool {
    let mut text = [0u8; answer_text::ROOM];
    let size = fund_printing::print(asked, file, &mut text);
    write(rt, &text[..size])
}

pub(crate) fn write_file(rt: &impl Print, file: &[u8], level: u64) -> bool {
    write_of_file(rt, Asked::Listing, file)
        && write_line(rt, file, &reader::read(file))
        && write_of_file(rt, Asked::AtLevel(level), file)
        && write(rt, b"\n")
}

fn write_of_sheets(
    rt: &impl Print,
    asked: Asked,
    header: &[u8],
    rates: &[u8],
    members: &[u8],
) -> bool {
    let mut text = [0u8; answer_text::ROOM];
    let size = fund_printing::print_sheets(asked, header, rates, members, &mut text);
    write(rt, &text[..size])
}

pub(crate) fn write_sheets(
    rt: &impl Print,
    header: &[u8],
    rates: &[u8],
    members: &[u8],
    level: u64,
) -> bool {
    write_of_sheets(rt, Asked::Listing, header, rates, members)
        && write_line(rt, header, &sheet_reader::read(header, rates, members))
        && write_of_sheets(rt, Asked::AtLevel(level), header, rates, members)
        && write(rt, b"\n")
}

pub(crate) fn write_comparison(rt: &impl Print, old: &[u8], new: &[u8]) -> bool {
    let mut text = [0u8; comparison_printing::ROOM];
    let size = comparison_printing::print(old, new, &mut text);
    write(rt, &text[..size]) && write(rt, b"\n")
}
