// Prints the deductible at a level of the fund file on standard input: the first place where the sum of the cells is at least the level,
// or none; or the refusal's line. The level is the argument, in units of 10^-12.

#![tactic(auto)]

use fund_printing::Asked;
use input::Noted;
use std::io::{Eprint, Print};

fn print_usage(rt: &impl Eprint) {
    let _ = eprintln!(rt;
        "usage: level UNITS < FILE, where UNITS is the level times 10^12, in 1 to 20 digits and below 2^64"
    );
}

fn print_line(rt: HostRuntime, level: u64) {
    let mut file = [0u8; fund_printing::MOST_BYTES];
    let mut text = [0u8; answer_text::LEVEL_ROOM];
    let mut reader = Noted::new(rt.stdin());
    match fund_printing::print_input(Asked::AtLevel(level), &mut reader, &mut file, &mut text) {
        Ok(printed) => {
            if let Err(error) = rt.write_all(&text[..printed.size]) {
                input::say(&rt, "standard output", error);
            }
        }
        Err(_) => input::say(&rt, "standard input", reader.error()),
    }
}

fn main(rt: HostRuntime) {
    if input::argument_count(&rt) != 2 {
        print_usage(&rt);
        return;
    }
    let mut word = [0u8; 20];
    match spelling::level_of(input::argument_text(&rt, 1, &mut word)) {
        Some(level) => print_line(rt, level),
        None => print_usage(&rt),
    }
}
