// FNV-1a with 64 bits over the cells of a table, and over bytes.
#![tactic(auto)]

ghost use Rattle.std.specs.Prelude.{◌≡◌, ◌*◌, ◌%◌, ◌^◌};
ghost use Rattle.hash.specs.Hash.{hash_byte, hash_bytes, hash_cell, hash_cells, start};

// The number to begin with.
pub const START: u64 = 14695981039346656037;

// One byte taken into a hash: exclusive or, then the product with the prime 256 * 2^32 + 435, modulo 2^64.
#[tactic(auto, unfolding(crate::specs::Hash::hash_byte))]
fn with_byte(h: u64, b: u64) -> u64
    ensures { result ≡ hash_byte h b }
{
    (h ^ b).wrapping_mul(1099511628211)
}

// A cell's two bytes taken into a hash, low byte first.
#[tactic(auto, unfolding(crate::specs::Hash::hash_cell))]
fn with_cell(h: u64, c: u16) -> u64
    ensures { result ≡ hash_cell h c }
{
    let n = u64::from(c);
    with_byte(with_byte(h, n % 256), n / 256)
}

// The hash of all cells.
pub fn hash_of(cells: &[u16]) -> u64
    ensures { result ≡ hash_cells start cells.now }
{
    cells.iter().fold(START, |h, &c| with_cell(h, c))
}

// Bytes taken into a hash, in order.
pub fn with_bytes(before: u64, bytes: &[u8]) -> u64
    ensures { result ≡ hash_bytes before bytes.now }
{
    bytes
        .iter()
        .fold(before, |h, &b| with_byte(h, u64::from(b)))
}
