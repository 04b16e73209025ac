// What the call for C that compares two fund files does. The call itself, as include/miguepo.h declares it, is the export of miguepo_comparison_c, whose clause is this
// one's. It stands in a library of its own, so that the pricing calls keep the code that the compiler makes of them where nothing else calls what they call.
#![tactic(auto)]

ghost use Rattle.std.specs.Prelude.{◌≡◌};
ghost use Rattle.fund.specs.Cells.{lengths, SameSlices};
ghost use Rattle.miguepo_comparison.specs.HostComparison.{handed_cells, member_fields, moved_fields, SignedFields, comparison_fields, ReadBack, HostsComparison};

use comparison::Comparison;
use fund::Cells;
use miguepo::{FIELDS, bits, hand_over};
use moves::{Differences, MemberLine, Move};

// How many fields the struct of a comparison has.
pub const COMPARISON_FIELDS: usize = 12;

// The fields of a member line that differs; of none, zeros.
fn member_fields(member: Option<MemberLine>) -> MemberLine
    ensures { result ≡ member_fields member }
{
    member.unwrap_or(MemberLine {
        member: 0,
        old_line: 0,
        new_line: 0,
    })
}

// The fields of a move.
fn moved_fields(m: Move, d: Differences) -> [u64; COMPARISON_FIELDS]
    ensures { (result ≡ moved_fields m d) × SignedFields m }
{
    let premium = bits(m.premium);
    let least = bits(m.least);
    let most = bits(m.most);
    let gross = bits(m.gross);
    let gross_least = bits(m.gross_least);
    let gross_most = bits(m.gross_most);
    let header = d.header.unwrap_or(0);
    let line = member_fields(d.member);
    [
        1,
        premium,
        m.arithmetic,
        least,
        most,
        gross,
        gross_least,
        gross_most,
        header,
        line.member,
        line.old_line,
        line.new_line,
    ]
}

fn comparison_fields(comparison: Option<Comparison>) -> [u64; COMPARISON_FIELDS]
    ensures { (result ≡ comparison_fields comparison) × ReadBack comparison }
{
    match comparison {
        Some(told) => moved_fields(told.moved, told.differences),
        None => [0; COMPARISON_FIELDS],
    }
}

// Prices an old fund file and a new one, each into five result slices of its own, compares them, and fills the three structs.
pub fn miguepo_compare(
    old: &[u8],
    new: &[u8],
    level: u64,
    old_cells: &mut Cells,
    new_cells: &mut Cells,
    old_result: &mut [u64; FIELDS],
    new_result: &mut [u64; FIELDS],
    comparison: &mut [u64; COMPARISON_FIELDS],
)
    ensures old_slices { SameSlices old_cells.old old_cells.new }
    ensures new_slices { SameSlices new_cells.old new_cells.new }
    ensures hosts { HostsComparison old.now new.now level (lengths old_cells.old) (lengths new_cells.old)
        (handed_cells old_result.new old_cells.new) (handed_cells new_result.new new_cells.new) comparison.new }
{
    let compared = comparison::compare(old, new, level, old_cells, new_cells);
    hand_over(compared.old, old_result);
    hand_over(compared.new, new_result);
    *comparison = comparison_fields(compared.comparison);
}
