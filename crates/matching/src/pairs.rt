// All pairs of a literal of C and one of D: which match, and what is noted of their variables.
ghost use Rattle.std.specs.Prelude.{◌≡◌, ◌<◌};
ghost use Rattle.matching.specs.Pairs.{numbers_matched, pair_matched, pairs_matched};

use following::nodes::{Nodes, Origins, part_of};
use images::images::{Notes, match_atoms};

// For each pair whether its literals match.
pub type Found = [bool; 64];

// For every two pairs whether they go together: cell 64 × p + q.
pub type Together = [bool; 4096];

// Whether two literals match, by their numbers: 2 × row, plus 1 if positive. Signs come first.
fn match_numbers(nodes: &Nodes, notes: &mut Notes, p: u16, x: u16, z: u16) -> bool
    requires { p < 64 }
    ensures { (result, notes.new) ≡ numbers_matched nodes.now p x z notes.old }
{
    x % 2 == z % 2
        && match_atoms(
            nodes,
            notes,
            64 * (p as usize),
            (x / 2) as u32,
            (z / 2) as u32,
        )
}

// Whether pair 8 × i + n is one, with literal i of C, from 0, and literal n of D, from 1, and whether these match.
fn match_pair(
    nodes: &Nodes,
    origins: &Origins,
    notes: &mut Notes,
    c: u16,
    d: u16,
    lefts: u16,
    rights: u16,
    p: u16,
) -> bool
    requires { p < 64 }
    ensures { (result, notes.new) ≡ pair_matched nodes.now origins.now c d lefts rights p notes.old }
{
    let i = p / 8;
    let n = p % 8;
    if i >= lefts || n == 0 || n > rights {
        return false;
    }
    match_numbers(
        nodes,
        notes,
        p,
        part_of(origins, c, i),
        part_of(origins, d, n - 1),
    )
}

// All pairs.
pub fn match_pairs(
    nodes: &Nodes,
    origins: &Origins,
    found: &mut Found,
    notes: &mut Notes,
    c: u16,
    d: u16,
    lefts: u16,
    rights: u16,
)
    ensures { record { found = found.new; notes = notes.new } ≡ pairs_matched nodes.now origins.now c d lefts rights 64 (record { found = found.old; notes = notes.old }) }
{
    for p in 0..64 {
        found[p as usize] = match_pair(nodes, origins, notes, c, d, lefts, rights, p);
    }
}
