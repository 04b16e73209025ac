// The member rows of a fund, in a table of fixed room that can be copied: the places behind the rows are blank.
ghost use Rattle.std.specs.Prelude.{◌≡◌, ◌≤◌, ◌<◌, ◌++◌, [], ◌∷◌, length};
ghost use Rattle.fund.specs.Limits.{most_members};
ghost use Rattle.rows.specs.Table.{table_of};

use fund::{Fund, Member};
use std::marker::Model;

#[derive(Clone, Copy)]
pub struct MemberTable {
    rows: [Member; Fund::MEMBER_ROWS],
    count: usize,
}

impl Model for MemberTable {
    ghost use Rattle.std.specs.Prelude.{◌≡◌, ◌≤◌, length, take};
    ghost use Rattle.std.proofs.Common.{sym, length-take-le};
    ghost use Rattle.fund.specs.declared.Member.{Member};
    ghost use Rattle.fund.specs.Limits.{most_members};
    ghost use Rattle.fund.specs.Answer.{lent};
    ghost use Rattle.laws.specs.Rows.{blank_member};
    ghost use Rattle.rows.specs.Table.{Table};

    ghost Value = { Table Member };

    ghost view = { λ t. record { items = take t.count t.rows } };

    ghost invariant = { λ t. (t.count ≤ length t.rows) × (length t.rows ≡ most_members) × (t.rows ≡ lent blank_member most_members (take t.count t.rows)) };

    ghost inverse = { λ t. record { rows = lent blank_member most_members t.items; count = length t.items } };

    ghost inverse_ok = { λ t h i. record { rows = sym h.2 i; count = length-take-le t.count t.rows h.0 i } };
}

impl MemberTable {
    pub(crate) fn new() -> MemberTable
        ensures { result.items ≡ [] }
    {
        MemberTable {
            rows: [Member {
                age: 0,
                group: 0,
                d: 0,
                e: 0,
                lives: 0,
            }; Fund::MEMBER_ROWS],
            count: 0,
        }
    }

    // A table of these rows, where there is room for them.
    pub fn of(rows: &[Member]) -> Option<MemberTable>
        ensures { result ≡ table_of most_members rows.now }
    {
        if Fund::MEMBER_ROWS < rows.len() {
            return None;
        }
        let mut table = MemberTable::new();
        for row in rows {
            table.push(*row);
        }
        Some(table)
    }

    pub(crate) fn len(&self) -> usize
        ensures value { result ≡ length self.now.items }
        ensures fits { result ≤ most_members }
    {
        self.count
    }

    // The rows.
    pub fn as_slice(&self) -> &[Member]
        ensures value { result.now ≡ self.now.items }
        ensures fits { length result.now ≤ most_members }
    {
        &self.rows[..self.count]
    }

    pub(crate) fn push(&mut self, row: Member)
        requires { length self.old.items < most_members }
        ensures items { self.new.items ≡ self.old.items ++ row ∷ [] }
    {
        self.rows[self.count] = row;
        self.count += 1;
    }
}
