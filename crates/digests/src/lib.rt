// The length and the hash of a file's readout, of either kind.
#![tactic(auto)]

ghost use Rattle.pieces.specs.Placed.{PieceReady};
ghost use Rattle.digests.specs.Digest.{DigestAfter};

use answer::Answer;
use following::nodes::{Nodes, Origins};
use following::values::ValueCells;
use hash::{START, with_bytes};
use numbering::Naming;
use pieces::{Rest, write_piece};
use std::fmt;

// How many bytes there are, and their hash.
#[derive(Clone, Copy)]
pub struct Digest {
    pub length: usize,
    pub hash: u64,
}

// The length, a blank and the hash in 16 hexadecimal digits.
impl fmt::Display for Digest {
    fn fmt<W: fmt::Write>(&self, f: &mut fmt::Formatter<W>) -> fmt::Result {
        write!(f, "{} {:016x}", self.length, self.hash)
    }
}

// Goes through the readout piece by piece, by what the check left. The output has room for the longest line, so that no piece ends as
// too short.
pub fn digest_of(
    clauses: &[u16],
    bindings: &[u16],
    nodes: &Nodes,
    origins: &Origins,
    values: &mut ValueCells,
    naming: Naming,
    cells: &mut [u16],
    order: &mut [u32],
    a: Answer,
) -> Digest
    requires { PieceReady naming clauses.now bindings.now nodes.now origins.now values.old cells.old order.old a }
    ensures { DigestAfter naming clauses.now bindings.now nodes.now origins.now values.old values.new a result }
{
    let mut output = [0u8; 131072];
    let mut length = 0;
    let mut hash = START;
    let mut clause: u16 = 0;
    loop {
        let piece = write_piece(
            clauses,
            bindings,
            nodes,
            origins,
            values,
            naming,
            cells,
            order,
            a,
            clause,
            &mut output,
        );
        hash = with_bytes(hash, &output[..piece.written]);
        length += piece.written;
        let rest = piece.rest;
        let Rest::GoOn(next) = rest else {
            return Digest { length, hash };
        };
        clause = next;
    }
}
