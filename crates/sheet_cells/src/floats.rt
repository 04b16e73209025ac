// The bits of a cell, eight bytes, least byte first, and the float of these bits.
ghost use Rattle.std.specs.Prelude.{◌≡◌, ◌+◌, ◌≤◌, length, take, drop};
ghost use Rattle.std.specs.Float.{binary64};
ghost use Rattle.std.specs.Float.Ieee.{nan_bits, of_bits};
ghost use Rattle.fund.specs.SheetCells.{least_first};

// A pattern without its sign is a NaN's where it is above the infinity's.
pub(crate) fn is_nan(bits: u64) -> bool
    ensures { result ≡ nan_bits binary64 bits }
{
    0x7ff0_0000_0000_0000 < bits % 0x8000_0000_0000_0000
}

// The float of a bit pattern. `from_bits` asks that the pattern is no NaN's.
pub(crate) fn float(bits: u64) -> f64
    ensures { result ≡ of_bits binary64 bits }
{
    if is_nan(bits) {
        f64::NAN
    } else {
        f64::from_bits(bits)
    }
}

// The bits of the cell from `at` on.
pub(crate) fn word(row: &[u8], at: usize) -> u64
    requires { at + 8 ≤ length row.now }
    ensures { result ≡ least_first (take 8 (drop at row.now)) }
{
    let bytes = [
        row[at],
        row[at + 1],
        row[at + 2],
        row[at + 3],
        row[at + 4],
        row[at + 5],
        row[at + 6],
        row[at + 7],
    ];
    u64::from_le_bytes(bytes)
}
