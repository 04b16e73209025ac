// The call for C that compares two fund files, as include/miguepo.h declares it: the archive exports the library's call, with its clause.
#![tactic(auto)]

ghost use Rattle.fund.specs.Cells.{slice_lengths};
ghost use Rattle.miguepo_comparison.specs.HostComparison.{handed, HostsComparison};

use fund::Cells;
use miguepo::FIELDS;
use miguepo_comparison::COMPARISON_FIELDS;

// Prices an old fund file and a new one, each into five result slices of its own, compares them, and fills the three structs.
#[unsafe(no_mangle)]
pub extern "C" fn miguepo_compare(
    old: &[u8],
    new: &[u8],
    level: u64,
    old_transform: &mut [i64],
    old_h: &mut [u64],
    old_f: &mut [i64],
    old_r: &mut [u64],
    old_sums: &mut [i64],
    new_transform: &mut [i64],
    new_h: &mut [u64],
    new_f: &mut [i64],
    new_r: &mut [u64],
    new_sums: &mut [i64],
    old_result: &mut [u64; FIELDS],
    new_result: &mut [u64; FIELDS],
    comparison: &mut [u64; COMPARISON_FIELDS],
)
    ensures { HostsComparison old.now new.now level
        (slice_lengths old_transform.old old_h.old old_f.old old_r.old old_sums.old)
        (slice_lengths new_transform.old new_h.old new_f.old new_r.old new_sums.old)
        (handed old_result.new old_transform.new old_h.new old_f.new old_r.new old_sums.new)
        (handed new_result.new new_transform.new new_h.new new_f.new new_r.new new_sums.new)
        comparison.new }
{
    let mut old_cells = Cells {
        transform: old_transform,
        h: old_h,
        f: old_f,
        r: old_r,
        sums: old_sums,
    };
    let mut new_cells = Cells {
        transform: new_transform,
        h: new_h,
        f: new_f,
        r: new_r,
        sums: new_sums,
    };
    miguepo_comparison::miguepo_compare(
        old,
        new,
        level,
        &mut old_cells,
        &mut new_cells,
        old_result,
        new_result,
        comparison,
    );
}
