// Runs the stored cases on standard input, one after the other. Each has a head: a letter, f for a file, s for a header text with two sheets or p for
// a pair of files; the lengths of three texts as six digits each, 000000 for those that it does not have; a level as thirteen digits; a space before
// each number, and a line feed. Its texts follow.

#![tactic(auto)]

mod answers;

ghost use Rattle.std.specs.Prelude.{◌≡◌, ◌≤◌, length, take};
ghost use Rattle.input.specs.Input.{size_of};

use fund_printing::MOST_BYTES;
use input::ReadFailed;
use std::io::{Print, Read};

const HEAD: usize = 37;

fn write(rt: &impl Print, text: &[u8]) -> bool {
    rt.write_all(text).is_ok()
}

// The number that some digits spell.
fn number_of(digits: &[u8]) -> u64 {
    spelling::level_of(digits).unwrap_or(u64::MAX)
}

// How many bytes were there, also where a read failed behind them.
fn size_of(read: Result<usize, ReadFailed>) -> usize
    ensures { result ≡ size_of read }
{
    match read {
        Ok(size) => size,
        Err(failed) => failed.size,
    }
}

// Reads the text whose length the digits spell to the start of the buffer; how many of its bytes were there.
fn read_part(reader: &mut impl Read, buffer: &mut [u8], digits: &[u8]) -> usize
    ensures { (result ≤ length buffer.new) × (result ≡ length (take result buffer.new)) }
{
    let size = number_of(digits) as usize;
    if buffer.len() < size {
        return 0;
    }
    size_of(input::read_bytes(Some(reader), &mut buffer[..size]))
}

// Writes the answer of a case; whether its kind is known and all was written.
fn write_case(
    rt: &impl Print,
    kind: u8,
    first: &[u8],
    second: &[u8],
    third: &[u8],
    level: u64,
) -> bool {
    match kind {
        b'f' => answers::write_file(rt, first, level),
        b's' => answers::write_sheets(rt, first, second, third, level),
        b'p' => answers::write_comparison(rt, first, second),
        _ => false,
    }
}

// The next case; whether there was one.
fn next_case(
    rt: &impl Print,
    reader: &mut impl Read,
    first: &mut [u8],
    second: &mut [u8],
    third: &mut [u8],
) -> bool {
    let mut head = [0u8; HEAD];
    if size_of(input::read_bytes(Some(&mut *reader), &mut head)) < HEAD {
        return false;
    }
    let first_size = read_part(reader, first, &head[2..8]);
    let second_size = read_part(reader, second, &head[9..15]);
    let third_size = read_part(reader, third, &head[16..22]);
    let level = number_of(&head[23..36]);
    write_case(
        rt,
        head[0],
        &first[..first_size],
        &second[..second_size],
        &third[..third_size],
        level,
    )
}

fn main(rt: HostRuntime) {
    let mut reader = rt.stdin();
    let mut first = [0u8; MOST_BYTES];
    let mut second = [0u8; MOST_BYTES];
    let mut third = [0u8; MOST_BYTES];
    for _ in 0..u64::MAX {
        if !next_case(&rt, &mut reader, &mut first, &mut second, &mut third) {
            return;
        }
    }
}
