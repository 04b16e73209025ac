// What a line behind the header says.
ghost use Rattle.std.specs.Prelude.{◌≡◌};
ghost use Rattle.fund.specs.Reading.{row_of};
ghost use Rattle.lines.specs.Lines.{line_of};
ghost use Rattle.lines.specs.Row.{row_said, RowIs};

use crate::line::{Line, LineReader};
use fund::{Member, Rate};

// A row, or the number of `end=`.
#[derive(Clone, Copy)]
pub enum Row {
    Rate(Rate),
    Member(Member),
    End(u64),
}

// The row that a line is spelled as, where it has one of the three forms.
fn row_in(line: Line) -> Option<Row>
    ensures { row_said result ≡ row_of (line_of line.entry) }
{
    if let Some(numbers) = line.spelled(b"rate=", 3) {
        let [age, q, i, ..] = numbers;
        return Some(Row::Rate(Rate { age, q, i }));
    }
    if let Some(numbers) = line.spelled(b"member=", 5) {
        let [age, group, d, e, lives] = numbers;
        return Some(Row::Member(Member {
            age,
            group,
            d,
            e,
            lives,
        }));
    }
    let [count, ..] = line.spelled(b"end=", 1)?;
    Some(Row::End(count))
}

// The row in the line that starts at `at`, with the next line's start; none where the line has no row's form, or is missing.
pub fn row_at(file: &[u8], at: usize) -> Option<(Row, usize)>
    ensures { RowIs file.now at result }
{
    let mut lines = LineReader { file, at };
    let line = lines.next_line()?;
    let row = row_in(line)?;
    Some((row, lines.at))
}
