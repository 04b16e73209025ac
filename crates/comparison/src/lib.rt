// One call compares two fund files, an old one and a new one: both are priced, and where both are accepted, the premium's move is told, the most
// that arithmetic can have to do with it, and what differs between the files beside the editions and the rate lines.
#![tactic(auto)]

ghost use Rattle.std.specs.Prelude.{◌≡◌};
ghost use Rattle.fund.specs.Cells.{lengths, SameSlices};
ghost use Rattle.pricing.specs.Priced.{left_priced};
ghost use Rattle.comparison.specs.Comparison.{Compares};
ghost use Rattle.comparison.specs.Steps.{told_of};

use fund::{Cells, Refused};
use moves::{Differences, Move};
use pricing::{NotPriced, Priced};
use rows::Rows;

// The premium's move and what differs between the files.
#[derive(Clone, Copy, PartialEq, Eq)]
pub struct Comparison {
    pub moved: Move,
    pub differences: Differences,
}

// What the pricing of each file answers, and the comparison of both; where one of the funds is refused, none.
#[derive(Clone, Copy, PartialEq, Eq)]
pub struct Compared {
    pub old: Result<Priced, NotPriced>,
    pub new: Result<Priced, NotPriced>,
    pub comparison: Option<Comparison>,
}

// What is told of two files that are read and priced.
fn told(
    before: Result<Priced, NotPriced>,
    after: Result<Priced, NotPriced>,
    old: Result<Rows<'_>, Refused>,
    new: Result<Rows<'_>, Refused>,
) -> Option<Comparison>
    ensures { result ≡ told_of before after old.entry new.entry }
{
    let before = before.ok()?;
    let after = after.ok()?;
    let old = old.ok()?;
    let new = new.ok()?;
    let moved = moves::move_between(old.fund, before.figures, new.fund, after.figures)?;
    let differences = moves::differing(old, new);
    Some(Comparison { moved, differences })
}

// Prices the old file and the new one, each into five result slices of its own, with an answer at the level, and compares them.
pub fn compare(
    old: &[u8],
    new: &[u8],
    level: u64,
    old_cells: &mut Cells,
    new_cells: &mut Cells,
) -> Compared
    ensures old_slices { SameSlices old_cells.old old_cells.new }
    ensures new_slices { SameSlices new_cells.old new_cells.new }
    ensures compares { Compares old.now new.now level (lengths old_cells.old) (lengths new_cells.old) result
        (left_priced result.old old_cells.new) (left_priced result.new new_cells.new) }
{
    let first = reader::read(old);
    let second = reader::read(new);
    let old_rows = pricing::rows_of(&first);
    let new_rows = pricing::rows_of(&second);
    let before = pricing::price_read(old, old_rows, level, old_cells);
    let after = pricing::price_read(new, new_rows, level, new_cells);
    Compared {
        old: before,
        new: after,
        comparison: told(before, after, old_rows, new_rows),
    }
}
