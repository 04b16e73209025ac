// Prints the deductible at a level of a fund in a header text and two sheets, or the refusal's line. The arguments are the paths of the
// header text, of the rates and of the members, and the level in units of 10^-12.

#![tactic(auto)]

use fund_printing::Asked;
use std::io::Eprint;

fn print_usage(rt: &impl Eprint) {
    let _ = eprintln!(rt;
        "usage: sheets_level HEADER RATES MEMBERS UNITS, where UNITS is the level times 10^12, in 1 to 20 digits and below 2^64"
    );
}

fn main(rt: HostRuntime) {
    if input::argument_count(&rt) != 5 {
        print_usage(&rt);
        return;
    }
    let mut word = [0u8; 20];
    match spelling::level_of(input::argument_text(&rt, 4, &mut word)) {
        Some(level) => sheet_files::print_files(&rt, Asked::AtLevel(level)),
        None => print_usage(&rt),
    }
}
