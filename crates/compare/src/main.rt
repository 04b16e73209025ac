// Compares fund files in pairs, an old one and a new one, whose paths are the arguments, and prints the listing of each comparison, with an empty line between two. Of a pair
// that cannot be read it says which file.

#![tactic(auto)]

ghost use Rattle.std.specs.Prelude.{◌+◌, ◌^◌, ◌<◌};

use fund_printing::MOST_BYTES;
use std::io::{Eprint, Print};
use std::rt::{Env, Files};

fn print_usage(rt: &impl Eprint) {
    let _ = eprintln!(rt; "usage: compare OLD NEW [OLD NEW]..");
}

fn print_text<R: Print + Eprint>(rt: &R, text: &[u8]) {
    if let Err(error) = rt.write_all(text) {
        input::say(rt, "standard output", error);
    }
}

fn print_listing<R: Print + Eprint>(rt: &R, old: &[u8], new: &[u8]) {
    let mut text = [0u8; comparison_printing::ROOM];
    let size = comparison_printing::print(old, new, &mut text);
    print_text(rt, &text[..size]);
}

// The pair whose old file the argument i names.
fn print_pair<R: Env + Files + Print + Eprint>(rt: &R, i: usize)
    requires { i + 1 < 2 ^ 64 }
{
    let mut old = [0u8; MOST_BYTES];
    let mut new = [0u8; MOST_BYTES];
    let first = input::read_argument(rt, i, &mut old);
    let second = input::read_argument(rt, i + 1, &mut new);
    if first.is_err() {
        print_text(rt, b"unreadable=old\n");
    }
    if second.is_err() {
        print_text(rt, b"unreadable=new\n");
    }
    if let (Ok(old_size), Ok(new_size)) = (first, second) {
        print_listing(rt, &old[..old_size], &new[..new_size]);
    }
}

fn main(rt: HostRuntime) {
    let count = input::argument_count(&rt);
    if count < 3 || count % 2 == 0 {
        print_usage(&rt);
        return;
    }
    for i in (1..count).step_by(2) {
        if 1 < i {
            print_text(&rt, b"\n");
        }
        print_pair(&rt, i);
    }
}
