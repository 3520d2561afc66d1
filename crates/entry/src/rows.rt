// The node table and the table of origins, where the rows and the clauses of the file are kept decoded, eight cells each, and what a row of the
// file is taken as: itself or the earliest row that equals it (document 02, Q-2).
ghost use Rattle.std.specs.Prelude.{◌≡◌, ◌∷◌, ◌<◌};
ghost use Rattle.record.specs.Record.{decoded};
ghost use Rattle.derivation.specs.Derivation.{input_literals};
ghost use Rattle.distinct.specs.Rows.{with_node};
ghost use Rattle.entry.specs.Program.{earliest_node, taken_arguments, taken_literal, taken_literals, RowsReady, no_variable};

use following::nodes::{Nodes, is_variable, node, part_of};
use record::count;
use record_fields::fields;

// The eight cells of row r of the node table, or of clause r of the table of origins, written: a code, and the fields of a record.
pub fn put_cells(nodes: &mut Nodes, r: u16, code: u16, numbers: &[u16; 7])
    requires r_bound { r < 4096 }
    ensures nodes_after { nodes.new ≡ with_node nodes.old r (code ∷ numbers.now) }
{
    let at = 8 * usize::from(r);
    nodes[at] = code;
    nodes[at + 1..at + 8].copy_from_slice(numbers);
}

// What row r is taken as: itself, or where it is a repeat the earliest equal row.
pub(crate) fn earliest_of(nodes: &Nodes, r: u16) -> u16
    ensures { result ≡ earliest_node nodes.now r }
{
    if node(nodes, 8 * usize::from(r)) == 0 {
        part_of(nodes, r, 0)
    } else {
        r
    }
}

// The fields of an application with each argument taken so. Row 0 is never a repeat, so unused fields stay zero.
pub fn taken_arguments(nodes: &Nodes, numbers: &[u16; 7]) -> [u16; 7]
    ensures { result ≡ taken_arguments nodes.now numbers.now }
{
    std::array::from_fn(|i| {
        if i == 0 {
            numbers[i]
        } else {
            earliest_of(nodes, numbers[i])
        }
    })
}

// A literal's number with its row taken so.
fn taken_literal(nodes: &Nodes, n: u16) -> u16
    requires { RowsReady nodes.now }
    ensures { result ≡ taken_literal nodes.now n }
{
    2 * earliest_of(nodes, n / 2) + n % 2
}

// The numbers of an input clause with each row taken so.
pub fn taken_literals(nodes: &Nodes, numbers: &[u16; 7]) -> [u16; 7]
    requires { RowsReady nodes.now }
    ensures { result ≡ taken_literals nodes.now numbers.now }
{
    numbers.map(|n| taken_literal(nodes, n))
}

// Reason 7: whether no literal of an input clause is on a variable row.
pub fn no_variable(nodes: &Nodes, part: &[u8]) -> bool
    ensures { result ≡ no_variable nodes.now (input_literals (decoded part.now)) }
{
    fields(part)
        .iter()
        .take(usize::from(count(part)))
        .all(|n| !is_variable(nodes, earliest_of(nodes, *n / 2)))
}
