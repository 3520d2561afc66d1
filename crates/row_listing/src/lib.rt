// A row listed by its bucket, as the newest of it. `Index` in specs/ of the crate distinct has the contracts.
#![tactic(auto)]

ghost use Rattle.std.specs.Prelude.{◌≡◌, ◌+◌, ◌<◌};
ghost use Rattle.distinct.specs.Rows.{node_at};
ghost use Rattle.distinct.specs.Index.{bucket_of, Indexed, Listable};

use distinct::{Heads, Links, bucket};
use following::nodes::Nodes;

// The bucket of row r.
fn bucket_of_row(nodes: &Nodes, r: u16) -> usize
    requires { r < 4096 }
    ensures { (result ≡ bucket_of (node_at nodes.now r)) × (result < 4096) }
{
    let at = 8 * usize::from(r);
    bucket(
        nodes[at],
        nodes[at + 1],
        nodes[at + 2],
        nodes[at + 3],
        nodes[at + 4],
        nodes[at + 5],
        nodes[at + 6],
        nodes[at + 7],
    )
}

// Row n, which has just been written and has cells that no row below it has, becomes the newest row of its bucket.
pub fn list_row(nodes: &Nodes, heads: &mut Heads, links: &mut Links, n: u16)
    requires { Listable nodes.now n heads.old links.old }
    ensures { Indexed nodes.now (n + 1) heads.new links.new }
{
    let b = bucket_of_row(nodes, n);
    links[usize::from(n)] = heads[b];
    heads[b] = n + 1;
}
