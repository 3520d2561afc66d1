// A pack of files: for each four bytes of length, low byte first, and its bytes.
#![tactic(auto)]

ghost use Rattle.std.specs.Prelude.{◌≡◌, ◌+◌, ◌≤◌, length};
ghost use Rattle.pack.specs.Pack.{entry_at, number_at, RightCount};

use std::ops::Range;

// The number in four bytes, low byte first.
#[tactic(auto, unfolding(crate::specs::Pack::number_at))]
fn number_at(pack: &[u8], at: usize) -> usize
    requires { at + 4 ≤ length pack.now }
    ensures { result ≡ number_at pack.now at }
{
    let a = usize::from(pack[at]);
    let b = usize::from(pack[at + 1]);
    let c = usize::from(pack[at + 2]);
    let d = usize::from(pack[at + 3]);
    a + 256 * b + 65536 * c + 16777216 * d
}

// The whole file that stands at a place of a pack, from the place of its first byte to the place behind its last; none where the rest is
// too short.
#[tactic(auto, using(crate::proofs::PackLaws::too_short, crate::proofs::PackLaws::cut_file, crate::proofs::PackLaws::whole_file))]
pub fn entry_at(pack: &[u8], at: usize) -> Option<Range<usize>>
    ensures { result ≡ entry_at pack.now at }
{
    if pack.len() <= at || pack.len() - at < 4 {
        return None;
    }
    let size = number_at(pack, at);
    let first = at + 4;
    if pack.len() - first < size {
        return None;
    }
    Some(first..first + size)
}

// How many files a pack holds; none where the last one is cut short. The loop goes from file to file: there is no number to count to.
#[tactic(auto, using(crate::proofs::PackLaws::passed_all_lem))]
pub fn count_files(pack: &[u8]) -> Option<usize>
    ensures { RightCount pack.now result }
{
    let mut at = 0;
    let mut n = 0;
    while at < pack.len() {
        at = entry_at(pack, at)?.end;
        n += 1;
    }
    Some(n)
}
