// The spelling of a text: where a byte stands, whether a key begins it, its numbers between commas, and the level that it says.
#![tactic(auto)]

ghost use Rattle.std.specs.Prelude.{◌≡◌, ◌+◌, length, drop};
ghost use Rattle.fund.specs.Spelling.{behind};
ghost use Rattle.spelling.specs.Text.{before, behind_if, value_in, number_in, level_in, NumbersOf};

use fund::Fund;

const MOST_DIGITS: usize = Fund::MOST_DIGITS as usize;

// The place of the first byte `b` from `from` on; where there is none, the length, or `from` if that is larger.
pub fn find(s: &[u8], b: u8, from: usize) -> usize
    ensures { result ≡ from + before b (drop from s.now) }
{
    for i in from..s.len() {
        if s[i] == b {
            return i;
        }
    }
    from.max(s.len())
}

// Whether the key begins the text.
pub fn begins(text: &[u8], key: &[u8]) -> bool
    ensures { behind key.now text.now ≡ behind_if result (length key.now) text.now }
{
    text.starts_with(key)
}

// The value of a text of digits alone, where it fits a word.
fn value_of(text: &[u8]) -> Option<u64>
    ensures { result ≡ value_in text.now }
{
    let mut value: u64 = 0;
    for b in text {
        if !b.is_ascii_digit() {
            return None;
        }
        value = value.checked_mul(10)?.checked_add(u64::from(*b - b'0'))?;
    }
    Some(value)
}

// "decimal, without sign, space or leading zero (0 itself is `0`), of one to seven digits"
fn number_of(text: &[u8]) -> Option<u64>
    ensures { result ≡ number_in text.now }
{
    let first = *text.first()?;
    if MOST_DIGITS < text.len() {
        return None;
    }
    if first == b'0' && 1 < text.len() {
        return None;
    }
    value_of(text)
}

// A level in units of 10^-12: one digit or more, whose value fits a word.
pub fn level_of(text: &[u8]) -> Option<u64>
    ensures { result ≡ level_in text.now }
{
    if text.is_empty() {
        return None;
    }
    value_of(text)
}

// Just `count` numbers between commas, up to five, and zeros behind them; a larger count no text has.
pub fn numbers_of(text: &[u8], count: usize) -> Option<[u64; 5]>
    ensures { NumbersOf count text.now result }
{
    let mut values = [0; 5];
    if values.len() < count {
        return None;
    }
    let mut fields = text.split(|b| *b == b',');
    for k in 0..count {
        values[k] = number_of(fields.next()?)?;
    }
    match fields.next() {
        Some(_) => None,
        None => Some(values),
    }
}
