// Prints the listing of the fund file on standard input, or the refusal's line.

#![tactic(auto)]

use fund_printing::Asked;
use input::Noted;
use std::io::Print;

fn main(rt: HostRuntime) {
    let mut file = [0u8; fund_printing::MOST_BYTES];
    let mut text = [0u8; answer_text::ROOM];
    let mut reader = Noted::new(rt.stdin());
    match fund_printing::print_input(Asked::Listing, &mut reader, &mut file, &mut text) {
        Ok(printed) => {
            if let Err(error) = rt.write_all(&text[..printed.size]) {
                input::say(&rt, "standard output", error);
            }
        }
        Err(_) => input::say(&rt, "standard input", reader.error()),
    }
}
