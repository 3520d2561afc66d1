// Whether a clause covers another, in ten numbers, for C. `ExportedCovers` in specs/ says what `checker_covers` promises.
#![tactic(auto)]

ghost use Rattle.std.specs.Prelude.{◌≡◌, ◌++◌, ◌≤◌, length, drop};
ghost use Rattle.comparing.specs.Given.{covering_given};

use comparing::covering::{Covering, NothingToCompare};

// The ten numbers of an answer: 0 no, 1 yes, 2 refused; the reason, 15 for nothing to compare; the record; and the literals chosen.
fn covering_numbers(r: Covering) -> [u16; 10]
    ensures { result ≡ covering_given r }
{
    let (kind, reason, n) = match r {
        Ok(Some(chosen)) => (1, 0, chosen),
        Ok(None) => (0, 0, [0; 7]),
        Err(NothingToCompare) => (2, 15, [0; 7]),
    };
    [kind, reason, 0, n[0], n[1], n[2], n[3], n[4], n[5], n[6]]
}

// Writes the ten numbers of an answer to the first ten cells.
pub fn put_covering(r: Covering, answer: &mut [u16])
    requires { 10 ≤ length answer.old }
    ensures { answer.new ≡ covering_given r ++ drop 10 answer.old }
{
    answer[..10].copy_from_slice(&covering_numbers(r));
}
