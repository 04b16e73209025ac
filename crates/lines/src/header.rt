// The header lines, in their order.
ghost use Rattle.std.specs.Prelude.{◌≡◌, ◌≤◌, length, replicate};
ghost use Rattle.fund.specs.Reading.{in_ranges};
ghost use Rattle.lines.specs.Header.{range, HeaderStepped, HeaderRead};

use crate::line::LineReader;
use fund::{Frequencies, Fund, Refusal, Refused};

// Takes the header's lines; the next one has this place, counted from 1.
#[derive(Drop)]
struct HeaderReader<'a> {
    lines: LineReader<'a>,
    place: u64,
}

// Whether all numbers are from the least to the most.
fn all_within(least: u64, most: u64, numbers: &[u64]) -> bool
    ensures { result ≡ in_ranges (replicate (length numbers.now) (range least most)) numbers.now }
{
    numbers.iter().all(|n| rows::within(least, most, *n))
}

impl<'a> HeaderReader<'a> {
    // The numbers of the next line: just `count`, spelled so, and from the least to the most each; form before range.
    fn numbers(
        &mut self,
        key: &[u8],
        count: usize,
        least: u64,
        most: u64,
    ) -> Result<[u64; 5], Refused>
        requires few { count ≤ 5 }
        requires place { self.old.place ≤ 7 }
        ensures file { self.new.lines.file ≡ self.old.lines.file }
        ensures step { HeaderStepped self.old.lines.file.now self.old.lines.at self.old.place key.now count (range least most) result self.new.lines.at self.new.place }
    {
        let Some(line) = self.lines.next_line() else {
            return Err(Refusal::Form.at(self.place));
        };
        let Some(numbers) = line.spelled(key, count) else {
            return Err(Refusal::Form.at(self.place));
        };
        if !all_within(least, most, &numbers[..count]) {
            return Err(Refusal::Range.at(self.place));
        }
        self.place += 1;
        Ok(numbers)
    }
}

// Every header line of a text, which a file begins with: the figures, and where the last line ends.
pub fn read_header(text: &[u8]) -> Result<(Fund, usize), Refused>
    ensures { HeaderRead text.now result }
{
    let lines = LineReader { file: text, at: 0 };
    let mut header = HeaderReader { lines, place: 1 };
    let [rates, ..] = header.numbers(b"rates=", 1, Fund::LEAST_EDITION, Fund::MOST_EDITION)?;
    let [members, ..] = header.numbers(b"members=", 1, Fund::LEAST_EDITION, Fund::MOST_EDITION)?;
    let [horizon, ..] = header.numbers(b"horizon=", 1, 0, Fund::MOST_HORIZON)?;
    let [order, ..] = header.numbers(b"order=", 1, Fund::LEAST_ORDER, Fund::MOST_ORDER)?;
    let [death, disability, ..] = header.numbers(b"frequency=", 2, 0, Fund::MOST_FREQUENCY)?;
    let [deductible, ..] = header.numbers(b"deductible=", 1, 0, Fund::MOST_DEDUCTIBLE)?;
    let [worth, ..] = header.numbers(b"worth=", 1, Fund::LEAST_WORTH, Fund::MOST_WORTH)?;
    let fund = Fund {
        rates,
        members,
        horizon,
        order,
        frequency: Frequencies { death, disability },
        deductible,
        worth,
    };
    Ok((fund, header.lines.at))
}
