// Which two pairs of literals go together: both match, and no variable has two images. `Pairs` in specs/ of the crate matching has the contracts.
#![tactic(auto)]

ghost use Rattle.std.specs.Prelude.{◌≡◌, ◌<◌};
ghost use Rattle.matching.specs.Pairs.{agree_at, agree_from, go_together, table_filled};

use images::images::{Notes, image};
use matching::pairs::{Found, Together};

// Whether a variable has no two images: x and y, each 0 for none.
fn agree_at(x: u32, y: u32) -> bool
    ensures { result ≡ agree_at x y }
{
    x == 0 || y == 0 || x == y
}

// Whether the notes of two pairs agree at every variable.
fn agree(notes: &Notes, p: usize, q: usize) -> bool
    requires { (p < 64) × (q < 64) }
    ensures { result ≡ agree_from notes.now p q 64 0 }
{
    for v in 0..64 {
        if !agree_at(image(notes, 64 * p + v), image(notes, 64 * q + v)) {
            return false;
        }
    }
    true
}

// Whether two pairs go together: both match, and their notes agree.
fn go_together(found: &Found, notes: &Notes, p: usize, q: usize) -> bool
    requires { (p < 64) × (q < 64) }
    ensures { result ≡ go_together found.now notes.now p q }
{
    found[p] && found[q] && agree(notes, p, q)
}

// The table of that.
pub fn fill_table(found: &Found, notes: &Notes, table: &mut Together)
    ensures { table.new ≡ table_filled found.now notes.now 4096 table.old }
{
    for x in 0..4096 {
        table[x] = go_together(found, notes, x / 64, x % 64);
    }
}
