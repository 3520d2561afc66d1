// The lines of a readout on standard output, one after another, and what standard error is told.
#![tactic(auto)]

pub mod report;

ghost use Rattle.pieces.specs.Placed.{PieceReady};

use answer::Answer;
use following::nodes::{Nodes, Origins};
use following::values::ValueCells;
use numbering::Naming;
use std::io;
use units::{unit_count, write_unit};

// Writes line after line to standard output, the first one with that of clause 0, until one cannot be written.
pub fn write_lines<R: Print>(
    rt: &R,
    clauses: &[u16],
    bindings: &[u16],
    nodes: &Nodes,
    origins: &Origins,
    values: &mut ValueCells,
    naming: Naming,
    cells: &mut [u16],
    order: &mut [u32],
    a: Answer,
) -> io::Result<()>
    requires { PieceReady naming clauses.now bindings.now nodes.now origins.now values.old cells.old order.old a }
{
    let mut text = [0u8; 131072];
    let count = unit_count(a.clauses);
    for n in 0..count {
        let end = write_unit(
            clauses, bindings, nodes, origins, values, &mut text, naming, cells, order, a, n,
        );
        rt.write_all(&text[..end])?;
    }
    Ok(())
}
