// A piece of a readout: as many whole units as fit into an output.
#![tactic(auto)]

ghost use Rattle.std.specs.Prelude.{◌≡◌, ◌+◌, ◌≤◌, length};
ghost use Rattle.std.proofs.Math.Seq.{paste};
ghost use Rattle.units.specs.Units.{AfterCheck};
ghost use Rattle.numbering.specs.declared.Naming.TheVariants.{ByIndex, ByAppearance};
ghost use Rattle.pieces.specs.Placed.{PieceReady, PieceOf, rest_given, stopped_at};

use answer::Answer;
use following::nodes::{Nodes, Origins};
use following::values::ValueCells;
use numbering::Naming;
use text::TextBuffer;
use units::{unit_count, write_unit};

// What comes after a piece: nothing, all is written; the clause that the next piece begins with; or there was no room for the line of
// this clause, with which the piece was to begin.
// An enum of its own: two of its three ways carry a clause, so that it would be a Result within an Option, which says less.
#[derive(Clone, Copy)]
pub enum Rest {
    Complete,
    GoOn(u16),
    TooShort(u16),
}

// How many bytes were written, and what comes after them.
#[derive(Clone, Copy)]
pub struct Piece {
    pub written: usize,
    pub rest: Rest,
}

// The first n bytes of the text go to the output, from a position on.
fn copy_text(text: &TextBuffer, output: &mut [u8], at: usize, n: usize)
    requires { (n ≤ 131072) × (at + n ≤ length output.old) }
    ensures { output.new ≡ paste output.old at text.now n }
{
    output[at..at + n].copy_from_slice(&text[..n]);
}

// Where a piece that began with a clause stopped before clause n.
fn stopped(begin: u16, n: u16) -> Rest
    ensures { rest_given result ≡ stopped_at begin n }
{
    if n == begin {
        Rest::TooShort(begin)
    } else {
        Rest::GoOn(n)
    }
}

// Writes the piece that begins with a clause. A line that does not fit any more is not begun.
pub fn write_piece(
    clauses: &[u16],
    bindings: &[u16],
    nodes: &Nodes,
    origins: &Origins,
    values: &mut ValueCells,
    naming: Naming,
    cells: &mut [u16],
    order: &mut [u32],
    a: Answer,
    begin: u16,
    output: &mut [u8],
) -> Piece
    requires { PieceReady naming clauses.now bindings.now nodes.now origins.now values.old cells.old order.old a }
    ensures { PieceOf naming clauses.now bindings.now nodes.now origins.now values.old values.new a begin output.old output.new result }
{
    let mut text = [0u8; 131072];
    let mut written = 0;
    for n in begin..unit_count(a.clauses) {
        let end = write_unit(
            clauses, bindings, nodes, origins, values, &mut text, naming, cells, order, a, n,
        );
        if output.len() - written < end {
            return Piece {
                written,
                rest: stopped(begin, n),
            };
        }
        copy_text(&text, output, written, end);
        written += end;
    }
    Piece {
        written,
        rest: Rest::Complete,
    }
}

// The same with variables numbered by appearance, with room for the numbers of any line. A function of its own, so that only this naming takes that room on the stack.
fn write_numbered_piece(
    clauses: &[u16],
    bindings: &[u16],
    nodes: &Nodes,
    origins: &Origins,
    values: &mut ValueCells,
    a: Answer,
    begin: u16,
    output: &mut [u8],
) -> Piece
    requires { AfterCheck clauses.now bindings.now nodes.now origins.now values.old a }
    ensures { PieceOf ByAppearance clauses.now bindings.now nodes.now origins.now values.old values.new a begin output.old output.new result }
{
    let mut cells = [0u16; 262208];
    let mut order = [0u32; 8192];
    write_piece(
        clauses,
        bindings,
        nodes,
        origins,
        values,
        Naming::ByAppearance,
        &mut cells,
        &mut order,
        a,
        begin,
        output,
    )
}

// A piece with variables named in either way. By number and index no room is needed.
pub fn write_named_piece(
    clauses: &[u16],
    bindings: &[u16],
    nodes: &Nodes,
    origins: &Origins,
    values: &mut ValueCells,
    naming: Naming,
    a: Answer,
    begin: u16,
    output: &mut [u8],
) -> Piece
    requires { AfterCheck clauses.now bindings.now nodes.now origins.now values.old a }
    ensures { PieceOf naming clauses.now bindings.now nodes.now origins.now values.old values.new a begin output.old output.new result }
{
    match naming {
        Naming::ByIndex => write_piece(
            clauses,
            bindings,
            nodes,
            origins,
            values,
            naming,
            &mut [],
            &mut [],
            a,
            begin,
            output,
        ),
        Naming::ByAppearance => write_numbered_piece(
            clauses, bindings, nodes, origins, values, a, begin, output,
        ),
    }
}
