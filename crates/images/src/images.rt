// One atom of C against one of D: each row of C's atom has one image, set once and compared after. Rows name only earlier rows, so one pass
// down the rows does it; no term is ever written out.
ghost use Rattle.std.specs.Prelude.{◌≡◌, suc, ◌+◌, ◌*◌, ◌<◌, get_or};
ghost use Rattle.unification.specs.Nodes.{is_variable, part, node_arity};
ghost use Rattle.images.specs.Matching.{imaged, same_head, arguments_imaged, row_matched, rows_matched, atoms_matched};

use following::nodes::{Nodes, node};

// Images: for each row its image, plus 1, or 0 for none.
pub type Images = [u32; 4096];

// Notes: for each pair of literals 64 cells, one for each variable number, that hold its image, plus 1, or 0.
pub type Notes = [u32; 4096];

// An image, 0 outside.
pub fn image(images: &Images, x: usize) -> u32
    ensures { result ≡ get_or images.now x 0 }
{
    images.get(x).copied().unwrap_or(0)
}

// Place x gets the image y; it has it already; or it has another one, and nothing changes.
fn take_image(images: &mut Images, x: usize, y: u32) -> bool
    requires { y < 4294967295 }
    ensures { (result, images.new) ≡ imaged images.old x y }
{
    let before = image(images, x);
    if before == 0 {
        if x < images.len() {
            images[x] = y + 1;
        }
        return true;
    }
    before == y + 1
}

// A row's code.
fn code_at(nodes: &Nodes, r: u32) -> u16
    ensures { result ≡ get_or nodes.now (8 * r) 0 }
{
    node(nodes, 8 * (r as usize))
}

// Part n of a row.
#[tactic(auto, unfolding(unification::specs::Nodes::part))]
fn part_at(nodes: &Nodes, r: u32, n: u16) -> u16
    ensures { result ≡ part nodes.now r n }
{
    node(nodes, 8 * (r as usize) + 1 + (n as usize))
}

// How many arguments a row has.
#[tactic(auto, unfolding(unification::specs::Nodes::node_arity))]
fn argument_count(nodes: &Nodes, r: u32) -> u16
    ensures { (result ≡ node_arity nodes.now r) × (result < 65534) }
{
    code_at(nodes, r).saturating_sub(2)
}

// Whether two rows have one code and one symbol.
fn same_head(nodes: &Nodes, r: u32, y: u32) -> bool
    ensures { result ≡ same_head nodes.now r y }
{
    code_at(nodes, r) == code_at(nodes, y) && part_at(nodes, r, 0) == part_at(nodes, y, 0)
}

// The arguments of row r get those of row y for images.
fn match_arguments(nodes: &Nodes, images: &mut Images, r: u32, y: u32) -> bool
    ensures { (result, images.new) ≡ arguments_imaged nodes.now r y (node_arity nodes.now r) 1 images.old }
{
    for n in 1..argument_count(nodes, r) + 1 {
        let x = part_at(nodes, r, n);
        let z = part_at(nodes, y, n);
        if !take_image(images, x as usize, z as u32) {
            return false;
        }
    }
    true
}

// Row r has the image y: a variable's is noted, and an application's arguments get images.
#[tactic(auto, unfolding(unification::specs::Nodes::is_variable))]
fn match_row(
    nodes: &Nodes,
    images: &mut Images,
    notes: &mut Notes,
    base: usize,
    r: u32,
    y: u32,
) -> bool
    requires { (base < 4096) × (y < 4294967295) }
    ensures { (result, (images.new, notes.new)) ≡ row_matched nodes.now base r y (images.old, notes.old) }
{
    if code_at(nodes, r) == 1 {
        let v = part_at(nodes, r, 0);
        return take_image(notes, base + (v as usize), y);
    }
    same_head(nodes, r, y) && match_arguments(nodes, images, r, y)
}

// All rows from c down that have an image.
fn match_rows(nodes: &Nodes, images: &mut Images, notes: &mut Notes, base: usize, c: u32) -> bool
    requires { (base < 4096) × (c < 65536) }
    ensures { (result, (images.new, notes.new)) ≡ rows_matched nodes.now base (suc c) (images.old, notes.old) }
{
    for r in (0..c + 1).rev() {
        let y = image(images, r as usize);
        if y != 0 && !match_row(nodes, images, notes, base, r, y - 1) {
            return false;
        }
    }
    true
}

// Row c gets the image d, in images that have none, and all is matched from there.
fn match_from(
    nodes: &Nodes,
    images: &mut Images,
    notes: &mut Notes,
    base: usize,
    c: u32,
    d: u32,
) -> bool
    requires { (base < 4096) × (c < 65536) × (d < 65536) }
    ensures { (result, (images.new, notes.new)) ≡ rows_matched nodes.now base (suc c) ((imaged images.old c d).1, notes.old) }
{
    take_image(images, c as usize, d);
    match_rows(nodes, images, notes, base, c)
}

// Whether the atoms of rows c and d match, with the images of the variables noted from a base on.
pub fn match_atoms(nodes: &Nodes, notes: &mut Notes, base: usize, c: u32, d: u32) -> bool
    requires { (base < 4096) × (c < 65536) × (d < 65536) }
    ensures { (result, notes.new) ≡ atoms_matched nodes.now base c d notes.old }
{
    let mut images = [0u32; 4096];
    match_from(nodes, &mut images, notes, base, c, d)
}
