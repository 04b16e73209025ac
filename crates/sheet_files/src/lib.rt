// The fund in three files that a program's arguments name: a header text and two sheets of binary64 cells, the rates and the members. What is
// asked of it, or the refusal's line, goes to standard output.

#![tactic(auto)]

use fund_printing::{Asked, MOST_BYTES};
use std::io::{Eprint, Print};
use std::rt::{Env, Files};

fn print<R: Print + Eprint>(rt: &R, asked: Asked, header: &[u8], rates: &[u8], members: &[u8]) {
    let mut text = [0u8; answer_text::ROOM];
    let size = fund_printing::print_sheets(asked, header, rates, members, &mut text);
    if let Err(error) = rt.write_all(&text[..size]) {
        input::say(rt, "standard output", error);
    }
}

// The first three arguments are the paths of the header text, of the rates and of the members.
pub fn print_files<R: Env + Files + Print + Eprint>(rt: &R, asked: Asked) {
    let mut header = [0u8; MOST_BYTES];
    let mut rates = [0u8; MOST_BYTES];
    let mut members = [0u8; MOST_BYTES];
    let first = input::read_argument(rt, 1, &mut header);
    let second = input::read_argument(rt, 2, &mut rates);
    let third = input::read_argument(rt, 3, &mut members);
    if let (Ok(header_size), Ok(rates_size), Ok(members_size)) = (first, second, third) {
        print(
            rt,
            asked,
            &header[..header_size],
            &rates[..rates_size],
            &members[..members_size],
        );
    }
}
