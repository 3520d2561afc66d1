// The workspace that a caller lends beside the tables, as one value. `Lent` in specs/ says that its parts stay the ones lent.

use super::nodes::{Nodes, Origins};
use super::values::ValueCells;

// A node table, a table of origins and an array of values, whatever they hold.
#[derive(Drop)]
pub struct LentWorkspace<'a> {
    pub nodes: &'a mut Nodes,
    pub origins: &'a mut Origins,
    pub values: &'a mut ValueCells,
}
