// The rows of a file that are no repeats (document 02, Q-2), found by their cells: a hash with chains, in place of comparing with
// every earlier row. `Rows` in specs/ says which row has given cells, `Index` what the heads and links are; the crates row_scan, row_search
// and row_listing go through the table, find a row and list one.
#![tactic(auto)]

ghost use Rattle.std.specs.Prelude.{◌≡◌, [], ◌∷◌, ◌<◌};
ghost use Rattle.distinct.specs.Index.{bucket_of};

// For each bucket one more than its newest row, or 0.
pub type Heads = [u16; 4096];

// For each listed row one more than the next older row of its bucket, or 0.
pub type Links = [u16; 4096];

// The bucket of eight cells. The products do not wait for each other.
pub fn bucket(code: u16, a: u16, b: u16, c: u16, d: u16, e: u16, f: u16, g: u16) -> usize
    ensures { (result ≡ bucket_of (code ∷ a ∷ b ∷ c ∷ d ∷ e ∷ f ∷ g ∷ [])) × (result < 4096) }
{
    let left = (code as u64) * 4031196873
        + (a as u64) * 2649911597
        + (b as u64) * 2656104757
        + (c as u64) * 3283478129;
    let right = (d as u64) * 3947238811
        + (e as u64) * 3153260809
        + (f as u64) * 2745936943
        + (g as u64) * 4180041711;
    ((left + right) % 4294967296 / 1048576) as usize
}
