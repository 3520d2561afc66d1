// Outlines before unification (document 02, Q-1): two rows compared as they are written, over the node table alone. No index, no binding and no
// array of values comes in.
#![tactic(auto)]

ghost use Rattle.std.specs.Prelude.{◌≡◌, ◌≤◌};
ghost use Rattle.unification.specs.Nodes.{node_arity, node_row};
ghost use Rattle.unification.specs.Listed.{listed_from};
ghost use Rattle.unification.specs.Outlines.{outlines_clash};
ghost use Rattle.outlines.specs.Comparing.{smaller, PairCompared, ArgumentsCompared, some_clash};

use following::nodes::{Nodes, arity_of, is_variable, part_of};

// How many pairs a comparison takes up at most.
const MOST_PAIRS: u16 = 4096;

// How many arguments both rows have.
fn common_arity(nodes: &Nodes, r: u16, q: u16) -> u16
    ensures { (result ≡ smaller (node_arity nodes.now r) (node_arity nodes.now q)) × (result ≤ 65533) }
{
    arity_of(nodes, r).min(arity_of(nodes, q))
}

// Takes up the pairs of arguments of two applications in order, each with all that it leads to before the next. The answer is how many more
// pairs may be taken up, or None for a clash.
#[cycle(compare_arguments_compare_pair)]
fn compare_arguments(nodes: &Nodes, r: u16, q: u16, pairs: u16) -> Option<u16>
    ensures { ArgumentsCompared nodes.now r q pairs result }
{
    let most = common_arity(nodes, r, q);
    let mut left = pairs;
    for n in 0..most {
        let a = part_of(nodes, r, n + 1);
        let b = part_of(nodes, q, n + 1);
        left = compare_pair(nodes, a, b, left)?;
    }
    Some(left)
}

// Takes up the pair of rows r and q and those that it leads to, `pairs` at most. Equal rows are not opened, and a variable agrees.
#[cycle(compare_arguments_compare_pair)]
fn compare_pair(nodes: &Nodes, r: u16, q: u16, pairs: u16) -> Option<u16>
    ensures { PairCompared nodes.now r q pairs result }
{
    if pairs == 0 {
        return Some(0);
    }
    if r == q {
        return Some(pairs - 1);
    }
    let left = pairs - 1;
    if is_variable(nodes, r) {
        return Some(left);
    }
    if is_variable(nodes, q) {
        return Some(left);
    }
    if part_of(nodes, r, 0) != part_of(nodes, q, 0) {
        return None;
    }
    compare_arguments(nodes, r, q, left)
}

// Whether the outlines of rows r and q clash.
pub fn outlines_clash(nodes: &Nodes, r: u16, q: u16) -> bool
    ensures { result ≡ outlines_clash (node_row nodes.now) r q }
{
    compare_pair(nodes, r, q, MOST_PAIRS).is_none()
}

// Whether the outline of row r clashes with that of one of n listed rows. Each comparison may take up all the pairs.
pub fn some_outlines_clash(nodes: &Nodes, r: u16, listed: &[u16; 8], n: u16) -> bool
    requires { n ≤ 4 }
    ensures { result ≡ some_clash (node_row nodes.now) r (listed_from listed.now 0 n) }
{
    for j in 0..n {
        if outlines_clash(nodes, r, listed[2 * (j as usize)]) {
            return true;
        }
    }
    false
}
