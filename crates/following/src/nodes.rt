// Reading the node table: the rows of a file, eight cells a row. Every function takes any row; what is not there reads 0.
ghost use Rattle.std.specs.Prelude.{◌≡◌, ◌<◌, get_or};
ghost use Rattle.unification.specs.Nodes.{is_variable, part, node_arity};

// The node table: eight cells for each of 4,096 rows.
pub type Nodes = [u16; 32768];

// The table of origins: eight cells for each of 4,096 clauses, read by the same functions.
pub type Origins = [u16; 32768];

// A cell of the node table, 0 outside.
pub fn node(nodes: &Nodes, at: usize) -> u16
    ensures { result ≡ get_or nodes.now at 0 }
{
    nodes.get(at).copied().unwrap_or(0)
}

// Whether the row is a variable.
pub fn is_variable(nodes: &Nodes, r: u16) -> bool
    ensures { result ≡ is_variable nodes.now r }
{
    node(nodes, 8 * (r as usize)) == 1
}

// Part 0 is the number of a variable or the symbol of an application; the parts from 1 on are its arguments.
pub fn part_of(nodes: &Nodes, r: u16, n: u16) -> u16
    ensures { result ≡ part nodes.now r n }
{
    node(nodes, 8 * (r as usize) + 1 + (n as usize))
}

// How many arguments the row has; none for a variable.
pub fn arity_of(nodes: &Nodes, r: u16) -> u16
    ensures { (result ≡ node_arity nodes.now r) × (result < 65534) }
{
    node(nodes, 8 * (r as usize)).saturating_sub(2)
}
