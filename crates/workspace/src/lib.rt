// What the caller lends besides the four tables: a node table, a table of origins and an array of values, whatever they hold. Behind a reference in a struct the
// length that an array's type has is not seen; a function that takes the array itself shows it.
#![tactic(auto)]

ghost use Rattle.std.specs.Prelude.{◌≡◌, length};
ghost use Rattle.reading.specs.Reader.{clear_table};

use following::nodes::Nodes;
use following::values::ValueCells;

// A node table or a table of origins is whole.
pub fn whole_table(table: &Nodes)
    ensures { length table.now ≡ 32768 }
{}

// So is an array of values.
pub fn whole_values(values: &ValueCells)
    ensures { length values.now ≡ 524416 }
{}

// A node table or a table of origins cleared, whatever it held.
pub fn clear_table(table: &mut Nodes)
    ensures { table.new ≡ clear_table }
{
    table.fill(0);
}
