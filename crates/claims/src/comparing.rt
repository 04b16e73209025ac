// What a customer may hold us to where two fund files are compared.
ghost use Rattle.std.specs.Prelude.{◌≡◌};
ghost use Rattle.fund.specs.Cells.{lengths, SameSlices};
ghost use Rattle.moves.specs.Differences.{differences, file_in};
ghost use Rattle.moves.specs.Move.{moved_of};
ghost use Rattle.claims.specs.Calls.{priced, ResultStruct, hosted_cells};
ghost use Rattle.claims.specs.Comparison.{ComparesPlainly, PrintsMove, comparison_read, ComparisonStruct};

use comparison::Compared;
use fund::{Cells, Figures, Fund};
use moves::{Differences, Move};
use rows::Rows;

// Demands 1, 2 and 3 of both funds, the premium's move, the most that arithmetic can have to do with it, and the theorem on the exact move.
pub fn claimed_comparison(
    old: &[u8],
    new: &[u8],
    level: u64,
    old_cells: &mut Cells,
    new_cells: &mut Cells,
) -> Compared
    ensures old_slices { SameSlices old_cells.old old_cells.new }
    ensures new_slices { SameSlices new_cells.old new_cells.new }
    ensures compares_plainly { ComparesPlainly old.now new.now level
        (lengths old_cells.old)
        (lengths new_cells.old)
        (priced old.now result.old old_cells.new)
        (priced new.now result.new new_cells.new)
        result.comparison }
{
    comparison::compare(old, new, level, old_cells, new_cells)
}

// The same of the call for C, and each field of its three structs.
pub fn claimed_host_comparison(
    old: &[u8],
    new: &[u8],
    level: u64,
    old_cells: &mut Cells,
    new_cells: &mut Cells,
    old_result: &mut [u64; miguepo::FIELDS],
    new_result: &mut [u64; miguepo::FIELDS],
    comparison: &mut [u64; miguepo_comparison::COMPARISON_FIELDS],
)
    ensures old_slices { SameSlices old_cells.old old_cells.new }
    ensures new_slices { SameSlices new_cells.old new_cells.new }
    ensures compares_plainly { ComparesPlainly old.now new.now level
        (lengths old_cells.old)
        (lengths new_cells.old)
        (hosted_cells old.now old_result.new old_cells.new)
        (hosted_cells new.now new_result.new new_cells.new)
        (comparison_read comparison.new) }
    ensures result_struct { ResultStruct old.now old_result.new
        (hosted_cells old.now old_result.new old_cells.new) }
    ensures result_struct_2 { ResultStruct new.now new_result.new
        (hosted_cells new.now new_result.new new_cells.new) }
    ensures comparison_struct { ComparisonStruct
        (hosted_cells old.now old_result.new old_cells.new)
        (hosted_cells new.now new_result.new new_cells.new)
        comparison.new }
{
    miguepo_comparison::miguepo_compare(
        old, new, level, old_cells, new_cells, old_result, new_result, comparison,
    );
}

// The listing of a comparison of two files.
pub fn claimed_comparison_print(old: &[u8], new: &[u8], text: &mut [u8]) -> usize
    ensures { PrintsMove old.now new.now text.old text.new result }
{
    comparison_printing::print(old, new, text)
}

// The move of any figures; outside their ranges none.
pub fn claimed_move(old: Fund, before: Figures, new: Fund, after: Figures) -> Option<Move>
    ensures { result ≡ moved_of old before new after }
{
    moves::move_between(old, before, new, after)
}

// What differs between any two files that were read.
pub fn claimed_differences(old: Rows<'_>, new: Rows<'_>) -> Differences
    ensures { result ≡ differences (file_in old.entry) (file_in new.entry) }
{
    moves::differing(old, new)
}
