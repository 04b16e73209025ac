// What differs between two files that were read: the first header line behind the editions' lines, and the first member line.
ghost use Rattle.std.specs.Prelude.{◌≡◌, take};
ghost use Rattle.moves.specs.Differences.{first_header_line, first_member_line, member_difference, differences, file_in};

use fund::{Fund, Member};
use rows::Rows;

// A member line in which two files differ, counted from 1 among the member lines, with its line in the old file and in the new one.
#[derive(Clone, Copy, PartialEq, Eq)]
pub struct MemberLine {
    pub member: u64,
    pub old_line: u64,
    pub new_line: u64,
}

// The first header line from line 3 on that differs, and the first member line, where one does.
#[derive(Clone, Copy, PartialEq, Eq)]
pub struct Differences {
    pub header: Option<u64>,
    pub member: Option<MemberLine>,
}

#[tactic(auto, unfolding(crate::specs::Differences::first_header_line))]
fn first_header_line(old: Fund, new: Fund) -> Option<u64>
    ensures { result ≡ first_header_line old new }
{
    if old.horizon != new.horizon {
        Some(3)
    } else if old.order != new.order {
        Some(4)
    } else if old.frequency != new.frequency {
        Some(5)
    } else if old.deductible != new.deductible {
        Some(6)
    } else if old.worth != new.worth {
        Some(7)
    } else {
        None
    }
}

// The first member line that differs, or that one of the files has alone.
fn first_member_line(old: &[Member], new: &[Member]) -> Option<u64>
    ensures { result ≡ first_member_line 1 old.now new.now }
{
    for (k, (m, n)) in old.iter().zip(new).enumerate() {
        if m != n {
            return Some(k as u64 + 1);
        }
    }
    if old.len() == new.len() {
        return None;
    }
    Some(old.len().min(new.len()) as u64 + 1)
}

// The first rows of a table, as many as a file has at most.
fn first<T>(rows: &[T], most: usize) -> &[T]
    ensures { result.now ≡ take most rows.now }
{
    &rows[..rows.len().min(most)]
}

// The first member line, with its line in both files: it stands behind the header lines and the rate lines.
fn first_member(old: Rows<'_>, new: Rows<'_>) -> Option<MemberLine>
    ensures { result ≡ member_difference (file_in old.entry) (file_in new.entry) }
{
    let old_members = first(old.members, Fund::MEMBER_ROWS);
    let new_members = first(new.members, Fund::MEMBER_ROWS);
    let member = first_member_line(old_members, new_members)?;
    let before = Fund::HEADER_LINES as u64 + member;
    Some(MemberLine {
        member,
        old_line: before + first(old.rates, Fund::RATE_ROWS).len() as u64,
        new_line: before + first(new.rates, Fund::RATE_ROWS).len() as u64,
    })
}

// What differs between two files that were read.
pub fn differing(old: Rows<'_>, new: Rows<'_>) -> Differences
    ensures { result ≡ differences (file_in old.entry) (file_in new.entry) }
{
    Differences {
        header: first_header_line(old.fund, new.fund),
        member: first_member(old, new),
    }
}
