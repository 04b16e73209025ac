// Prints the listing of a fund in a header text and two sheets, or the refusal's line. The arguments are the paths of the header text, of
// the rates and of the members.

#![tactic(auto)]

use fund_printing::Asked;

fn main(rt: HostRuntime) {
    if input::argument_count(&rt) != 4 {
        let _ = eprintln!(rt; "usage: sheets HEADER RATES MEMBERS");
        return;
    }
    sheet_files::print_files(&rt, Asked::Listing);
}
