// The places where D or H is not 0, so that the recursion forms no other product.
ghost use Rattle.std.specs.Prelude.{◌≡◌, true, [], ◌<◌, ◌≤◌, nat_abs, length};
ghost use Rattle.arrayvec.specs.ArrayVec.{array_vec_len};
ghost use Rattle.recursion.specs.Places.{Noted, Listed, AllSmall, SmallSizes};

use arrayvec::ArrayVec;
use fund::Fund;
use recursion_limits::Transform;

// A place for each k from 1 to X.
const MOST_PLACES: usize = Fund::MOST_HORIZON as usize;

// |D(k)| and H(k) up to these have products with a cell's figures that fit a word.
const MOST_SMALL_SIZE: u64 = 35 * rounding::UNIT;

const MOST_SMALL_ERROR: u64 = 9 * rounding::MILLION;

// The places in rising order, where k stands for D(k+1) and H(k+1), and whether all entries at them are small.
#[derive(Drop)]
pub(crate) struct Places {
    pub(crate) list: ArrayVec<usize, MOST_PLACES>,
    pub(crate) small: bool,
}

// Whether the entries so far are small, and one more.
fn all_small(small: bool, size: u64, h: u64) -> bool
    ensures { result ≡ true → (small ≡ true) × SmallSizes size h }
{
    size <= MOST_SMALL_SIZE && h <= MOST_SMALL_ERROR && small
}

impl Places {
    // Notes k behind the places that are there, where D or H is not 0.
    fn note(&mut self, k: usize, d: i64, h: u64)
        requires { array_vec_len self.old.list < 4095 }
        ensures { Noted (nat_abs d) h k self.old.list.items self.old.small self.new.list.items self.new.small }
    {
        let size = d.unsigned_abs();
        if size == 0 && h == 0 {
            return;
        }
        self.list.push(k);
        self.small = all_small(self.small, size, h);
    }

    pub(crate) fn none() -> Places
        ensures { (result.list.items ≡ []) × (result.small ≡ true) }
    {
        Places {
            list: ArrayVec::new(),
            small: true,
        }
    }

    // Notes the places below the horizon, in place (a table that is handed on is copied).
    pub(crate) fn fill(&mut self, t: Transform)
        requires lengths { (t.horizon < length t.d.now) × (t.horizon < length t.h.now) × (t.horizon ≤ 4095) }
        requires none_yet { (self.old.list.items ≡ []) × (self.old.small ≡ true) }
        ensures { Listed t.entry.horizon t.entry.d.now t.entry.h.now self.new.list.items
            × (self.new.small ≡ true → AllSmall t.entry.horizon t.entry.d.now t.entry.h.now) }
    {
        for k in 0..t.horizon {
            self.note(k, t.d[k + 1], t.h[k + 1]);
        }
    }
}
