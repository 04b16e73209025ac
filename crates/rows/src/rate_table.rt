// The rate rows of a fund, in a table of fixed room that can be copied: the places behind the rows are blank.
ghost use Rattle.std.specs.Prelude.{◌≡◌, ◌≤◌, ◌<◌, ◌++◌, [], ◌∷◌, length};
ghost use Rattle.fund.specs.Limits.{most_rates};
ghost use Rattle.rows.specs.Table.{table_of};

use fund::{Fund, Rate};
use std::marker::Model;

#[derive(Clone, Copy)]
pub struct RateTable {
    rows: [Rate; Fund::RATE_ROWS],
    count: usize,
}

impl Model for RateTable {
    ghost use Rattle.std.specs.Prelude.{◌≡◌, ◌≤◌, length, take};
    ghost use Rattle.std.proofs.Common.{sym, length-take-le};
    ghost use Rattle.fund.specs.declared.Rate.{Rate};
    ghost use Rattle.fund.specs.Limits.{most_rates};
    ghost use Rattle.fund.specs.Answer.{lent};
    ghost use Rattle.laws.specs.Rows.{blank_rate};
    ghost use Rattle.rows.specs.Table.{Table};

    ghost Value = { Table Rate };

    ghost view = { λ t. record { items = take t.count t.rows } };

    ghost invariant = { λ t. (t.count ≤ length t.rows) × (length t.rows ≡ most_rates) × (t.rows ≡ lent blank_rate most_rates (take t.count t.rows)) };

    ghost inverse = { λ t. record { rows = lent blank_rate most_rates t.items; count = length t.items } };

    ghost inverse_ok = { λ t h i. record { rows = sym h.2 i; count = length-take-le t.count t.rows h.0 i } };
}

impl RateTable {
    pub(crate) fn new() -> RateTable
        ensures { result.items ≡ [] }
    {
        RateTable {
            rows: [Rate { age: 0, q: 0, i: 0 }; Fund::RATE_ROWS],
            count: 0,
        }
    }

    // A table of these rows, where there is room for them.
    pub fn of(rows: &[Rate]) -> Option<RateTable>
        ensures { result ≡ table_of most_rates rows.now }
    {
        if Fund::RATE_ROWS < rows.len() {
            return None;
        }
        let mut table = RateTable::new();
        for row in rows {
            table.push(*row);
        }
        Some(table)
    }

    pub(crate) fn len(&self) -> usize
        ensures value { result ≡ length self.now.items }
        ensures fits { result ≤ most_rates }
    {
        self.count
    }

    // The rows.
    pub fn as_slice(&self) -> &[Rate]
        ensures value { result.now ≡ self.now.items }
        ensures fits { length result.now ≤ most_rates }
    {
        &self.rows[..self.count]
    }

    pub(crate) fn push(&mut self, row: Rate)
        requires { length self.old.items < most_rates }
        ensures items { self.new.items ≡ self.old.items ++ row ∷ [] }
    {
        self.rows[self.count] = row;
        self.count += 1;
    }
}
