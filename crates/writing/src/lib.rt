// Puts what is printed into a text, one piece behind the other.
#![tactic(auto)]

ghost use Rattle.std.specs.Prelude.{◌≡◌, ◌≤◌, [], ◌∷◌, ◌++◌, List, ℕ, length};
ghost use Rattle.fund.specs.Listing.{decimal, signed_decimal, joined, refused_line};
ghost use Rattle.writing.specs.Writing.{Puts, Written};
ghost use Rattle.writing.specs.Pointed.{pointed, signed_pointed};

use fund::Refused;
use itoa::{Buffer, Integer};

// A text that is written from a place on. A piece for which it is too short is cut at its end.
#[derive(Drop)]
pub struct Text<'a> {
    pub bytes: &'a mut [u8],
    pub next: usize,
}

// What is printed as std's `Display` prints, but never fails: no clause of `Display` says what a text holds after a write that fails.
pub trait Printed: Copy {
    ghost output: { Self → List ℕ };

    fn print(self, text: &mut Text<'_>)
        ensures { Puts text.old (output self) text.new };
}

// Writes what is printed of the value from the start of the bytes, and returns its size.
pub fn write<P: Printed>(value: P, bytes: &mut [u8]) -> usize
    ensures { length (P.output value) ≤ length bytes.old → Written (P.output value) bytes.old bytes.new result }
{
    let mut text = Text { bytes, next: 0 };
    value.print(&mut text);
    text.next
}

impl Text<'_> {
    // Puts the byte, where the text has a place for it.
    pub fn byte(&mut self, byte: u8)
        ensures { Puts self.old (byte ∷ []) self.new }
    {
        if self.next < self.bytes.len() {
            self.bytes[self.next] = byte;
            self.next += 1;
        }
    }

    // Puts the key's bytes.
    pub fn key(&mut self, key: &[u8])
        ensures { Puts self.old key.now self.new }
    {
        for byte in key {
            self.byte(*byte);
        }
    }

    // Puts the number and the byte behind it: a comma, or the line feed.
    pub fn figure<N: Printed>(&mut self, n: N, end: u8)
        ensures { Puts self.old (N.output n ++ (end ∷ [])) self.new }
    {
        n.print(self);
        self.byte(end);
    }

    // Puts a line with one figure.
    pub fn line<N: Printed>(&mut self, key: &[u8], n: N)
        ensures { Puts self.old (key.now ++ joined (N.output n) []) self.new }
    {
        self.key(key);
        self.figure(n, b'\n');
    }
}

// Puts the number in decimal, a negative one with its sign.
fn put_integer<I: Integer>(n: I, text: &mut Text<'_>)
    ensures { Puts text.old (I.text n) text.new }
{
    let mut digits = Buffer::new();
    text.key(digits.format(n).as_bytes());
}

impl Printed for u64 {
    ghost output = { decimal };

    fn print(self, text: &mut Text<'_>) {
        put_integer(self, text);
    }
}

impl Printed for i64 {
    ghost output = { signed_decimal };

    fn print(self, text: &mut Text<'_>) {
        put_integer(self, text);
    }
}

// METHOD 8: the line of a refusal.
impl Printed for Refused {
    ghost output = { λ refused. refused_line refused.why refused.place };

    fn print(self, text: &mut Text<'_>) {
        text.key(b"refused=");
        text.figure(u64::from(self.why), b',');
        text.figure(self.place, b'\n');
    }
}

// So many units of 10^-PLACES, printed with a point before the last digits.
#[derive(Clone, Copy)]
pub struct Pointed<const PLACES: u8, N>(pub N);

// Puts a number with a point before so many places: the digits of the tenth, and the last digit.
pub fn put_pointed(places: u8, n: u64, text: &mut Text<'_>)
    ensures { Puts text.old (pointed places n) text.new }
{
    if places == 0 {
        return text.figure(n, b'.');
    }
    put_pointed(places - 1, n / 10, text);
    text.byte(b'0' + (n % 10) as u8);
}

// The same of a number that may be negative.
pub fn put_signed_pointed(places: u8, n: i64, text: &mut Text<'_>)
    ensures { Puts text.old (signed_pointed places n) text.new }
{
    if n < 0 {
        text.byte(b'-');
    }
    put_pointed(places, n.unsigned_abs(), text);
}

impl<const PLACES: u8> Printed for Pointed<PLACES, u64> {
    ghost output = { λ x. pointed PLACES x.0 };

    fn print(self, text: &mut Text<'_>) {
        put_pointed(PLACES, self.0, text);
    }
}

impl<const PLACES: u8> Printed for Pointed<PLACES, i64> {
    ghost output = { λ x. signed_pointed PLACES x.0 };

    fn print(self, text: &mut Text<'_>) {
        put_signed_pointed(PLACES, self.0, text);
    }
}
