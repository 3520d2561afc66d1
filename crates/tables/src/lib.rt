// The tables that the caller lends, cell by cell. A read outside gives 0 and a write outside does nothing. `Cells` in specs/ has the
// contracts.
#![tactic(auto)]

pub mod lent;

ghost use Rattle.std.specs.Prelude.{◌≡◌, ◌≤◌, length, get_or, set};
ghost use Rattle.tables.specs.Cells.{cleared_part, with_clause_cells};

// A cell of a table, 0 outside.
pub fn cell(table: &[u16], at: usize) -> u16
    ensures { result ≡ get_or table.now at 0 }
{
    table.get(at).copied().unwrap_or(0)
}

// A cell written, if the table has it.
pub fn set_cell(table: &mut [u16], at: usize, v: u16)
    ensures { table.new ≡ set table.old at v }
{
    if at < table.len() {
        table[at] = v;
    }
}

// The cells from `from` up to `to` set to 0, and no others.
pub fn clear(table: &mut [u16], from: usize, to: usize)
    requires from_le_to { from ≤ to }
    requires to_in_bounds { to ≤ length table.old }
    ensures { table.new ≡ cleared_part from to table.old }
{
    table[from..to].fill(0);
}

// The five cells of clause c: its record k, how many literals it has, its maximum index, its first binding and how many it has.
pub fn put_clause(
    clauses: &mut [u16],
    c: u16,
    k: u16,
    literals: u16,
    index: u16,
    first: u16,
    count: u16,
)
    ensures { clauses.new ≡ with_clause_cells clauses.old c k literals index first count }
{
    let at = 5 * usize::from(c);
    set_cell(clauses, at, k);
    set_cell(clauses, at + 1, literals);
    set_cell(clauses, at + 2, index);
    set_cell(clauses, at + 3, first);
    set_cell(clauses, at + 4, count);
}
