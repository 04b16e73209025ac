// The recursion of METHOD 6 on a transform and a start from anywhere: each f(x) and R(x) from D, H and the cells before it. The
// limits that keep its sums within a word are tested first.
#![tactic(auto)]

mod places;
mod products;
mod steps;

ghost use Rattle.std.specs.Prelude.{◌≡◌, length};
ghost use Rattle.recursion_limits.specs.Tests.{cell_of};
ghost use Rattle.recursion.specs.Recursion.{left_cells, recursion};
ghost use Rattle.recursion.specs.Steps.{CarriedOut};

pub use recursion_limits::{Broken, Start, Transform};

// The limits, and where they are kept the steps.
fn carried_out(t: Transform, start: Start, f: &mut [i64], r: &mut [u64]) -> Result<(), Broken>
    ensures { CarriedOut t.entry.horizon t.entry.d.now t.entry.h.now (cell_of start)
        (length f.old) (length r.old) f.new r.new result }
{
    recursion_limits::tested(t, start, f.len(), r.len())?;
    steps::all_steps(t, start, f, r)
}

// Leaves f and R from 0 to X and zeros beyond, or zeros. D(0), H(0) and what stands beyond X are not read.
pub fn recursion(t: Transform, start: Start, f: &mut [i64], r: &mut [u64]) -> Result<(), Broken>
    ensures { left_cells result f.new r.new ≡
        recursion t.entry.horizon t.entry.d.now t.entry.h.now (cell_of start) (length f.old) (length r.old) }
{
    let done = carried_out(t, start, f, r);
    if done.is_err() {
        steps::clear_cells(f, r);
    }
    done
}
