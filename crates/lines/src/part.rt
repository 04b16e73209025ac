// The part of a file's bytes that the host is handed with a verdict.
ghost use Rattle.std.specs.Prelude.{◌≡◌};
ghost use Rattle.fund.specs.Answer.{names_line, line_at, part};
ghost use Rattle.lines.specs.Part.{Spans};

use crate::line::LineReader;
use fund::{Refusal, Verdict};
use std::ops::Range;

fn names_line(why: Refusal) -> bool
    ensures { result ≡ names_line why }
{
    matches!(
        why,
        Refusal::Form | Refusal::Range | Refusal::Unmatched | Refusal::Half
    )
}

// The line at a place, counted from 1, without its line feed; where it is missing, an empty part.
fn line_at(file: &[u8], place: u64) -> Range<usize>
    ensures { Spans file.now (line_at file.now place) result.start result.end }
{
    let mut lines = LineReader { file, at: 0 };
    for k in 0..place {
        let Some(line) = lines.next_line() else {
            return 0..0;
        };
        if k + 1 == place {
            return line.start..line.start + line.text.len();
        }
    }
    0..0
}

// "For a line's refusal the host is handed that line itself, a part of its own bytes without the line feed; for place 0, for
// number 10 and for a missing line, an empty part."
pub fn part_of(file: &[u8], verdict: Verdict) -> Range<usize>
    ensures { Spans file.now (part file.now verdict) result.start result.end }
{
    if let Err(refused) = verdict {
        if names_line(refused.why) {
            return line_at(file, refused.place);
        }
    }
    0..0
}
