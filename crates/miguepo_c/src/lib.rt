// The pricing calls for C, as include/miguepo.h declares them: the archive exports the library's calls, with their clauses.
#![tactic(auto)]

ghost use Rattle.fund.specs.Cells.{slice_lengths};
ghost use Rattle.fund.specs.Reading.{reading};
ghost use Rattle.fund.specs.Sheets.{sheet_reading};
ghost use Rattle.miguepo.specs.Host.{Hosts};

use fund::Cells;
use miguepo::FIELDS;

// Prices the fund of a file into the five result slices, answers at a level, and fills the struct.
#[unsafe(no_mangle)]
pub extern "C" fn miguepo_price(
    file: &[u8],
    level: u64,
    transform: &mut [i64],
    h: &mut [u64],
    f: &mut [i64],
    r: &mut [u64],
    sums: &mut [i64],
    res: &mut [u64; FIELDS],
)
    ensures { Hosts file.now (reading file.now) level
        (slice_lengths transform.old h.old f.old r.old sums.old)
        res.new transform.new h.new f.new r.new sums.new }
{
    let mut cells = Cells {
        transform,
        h,
        f,
        r,
        sums,
    };
    miguepo::miguepo_price(file, level, &mut cells, res);
}

// The same of a header text and two sheets of binary64 cells, of rates and of members.
#[unsafe(no_mangle)]
pub extern "C" fn miguepo_price_sheets(
    header: &[u8],
    rates: &[u8],
    members: &[u8],
    level: u64,
    transform: &mut [i64],
    h: &mut [u64],
    f: &mut [i64],
    r: &mut [u64],
    sums: &mut [i64],
    res: &mut [u64; FIELDS],
)
    ensures { Hosts header.now (sheet_reading header.now rates.now members.now) level
        (slice_lengths transform.old h.old f.old r.old sums.old)
        res.new transform.new h.new f.new r.new sums.new }
{
    let mut lent = Cells {
        transform,
        h,
        f,
        r,
        sums,
    };
    miguepo::miguepo_price_sheets(header, rates, members, level, &mut lent, res);
}
