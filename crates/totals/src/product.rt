// The start of METHOD 6's recursion: the product with p of each group 1 member.
ghost use Rattle.std.specs.Prelude.{◌≡◌, true, ◌*◌, ◌≤◌, replicate};
ghost use Rattle.fund.specs.Folding.{copies, claim, stay, single};
ghost use Rattle.fund.specs.Limits.{most_rate, most_lives};
ghost use Rattle.rounding.specs.Rounding.{near};
ghost use Rattle.totals.specs.Table.{PointIn, Points};
ghost use Rattle.start.specs.Terms.{most_t};
ghost use Rattle.totals.specs.Product.{SizeWith, Times, Multiplied};

use fund::{Fund, Life, ModelPoint};

// The magnitude of the product so far, and how many group 1 members are in it.
#[derive(Clone, Copy)]
pub(crate) struct Product {
    pub(crate) size: u64,
    pub(crate) singles: u64,
}

// A magnitude times p of a member, to the nearest.
fn times(size: u64, m: Life) -> u64
    requires { (claim m ≤ most_rate) × (size ≤ 200 * most_t) }
    ensures { result ≡ near (size * stay m) most_rate }
{
    let stay = Fund::MOST_RATE - m.q - m.i;
    rounding::nearest_per_million(size, stay)
}

// The same as many times as a group 1 line has lives, to the nearest each time.
fn repeated(size: u64, m: Life, lives: u64) -> u64
    requires { (single m ≡ true) × (claim m ≤ most_rate) × (size ≤ 200 * most_t) }
    ensures { SizeWith (replicate lives m) size result }
{
    let mut product = size;
    for _k in 0..lives {
        product = times(product, m);
    }
    product
}

// The product with one line more.
fn product_step(product: Product, p: ModelPoint) -> Product
    requires { PointIn p × (product.size ≤ 200 * most_t) × (product.singles ≤ most_lives) }
    ensures { Times p product result }
{
    if p.life.group == Fund::SINGLE {
        return Product {
            size: repeated(product.size, p.life, p.lives),
            singles: product.singles + p.lives,
        };
    }
    product
}

// A magnitude times p of each group 1 member, in file order.
pub(crate) fn multiplied(points: &[ModelPoint], size: u64) -> Product
    requires { Points points.now × (size ≤ 200 * most_t) }
    ensures { Multiplied (copies points.now) size result }
{
    let mut product = Product { size, singles: 0 };
    for p in points {
        product = product_step(product, *p);
    }
    product
}
