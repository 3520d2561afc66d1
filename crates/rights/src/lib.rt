// The right literals that a resolve names (document 02, Q-3): looked up one after another, and their atoms listed, two cells for each, its row
// and its index. `Rights` in specs/ of the crate inference has the contracts.
#![tactic(auto)]

ghost use Rattle.std.specs.Prelude.{◌≤◌, ◌<◌};
ghost use Rattle.inference.specs.Rights.{AtomListed, RightsNamed, RightsTested};
ghost use Rattle.inference.specs.Stepping.{ClausesStored};

use following::nodes::Origins;
use literal_walk::literal;
use reasons::Reason;

// The atom is listed as number j, after those before it.
fn list_atom(listed: &mut [u16; 8], j: u16, row: u16, index: u16)
    requires { j < 4 }
    ensures { AtomListed listed.old listed.new j (row, index) }
{
    listed[2 * (j as usize)] = row;
    listed[2 * (j as usize) + 1] = index;
}

// Looks up n right literals, whose clause and numbers are fields c, d, e, f and g, and lists their atoms: whether all have the other sign than the
// left one, if all exist.
fn named_rights(
    origins: &Origins,
    clauses: &[u16],
    count: u16,
    numbers: &[u16; 7],
    n: u16,
    positive: bool,
    listed: &mut [u16; 8],
) -> Option<bool>
    requires clauses_stored { ClausesStored origins.now clauses.now count }
    requires n_bound { n ≤ 4 }
    ensures { RightsNamed origins.now clauses.now count numbers.now n positive listed.new result }
{
    let c = numbers[2];
    if c >= count {
        return None;
    }
    let mut opposite = true;
    for j in 0..n {
        let named = literal(origins, clauses, c, numbers[3 + (j as usize)]);
        // Not by `?`: document 01 names this form ("Matching forms to places").
        let Some(right) = named else {
            return None;
        };
        list_atom(listed, j, right.row, right.index);
        opposite &= positive != right.positive;
    }
    Some(opposite)
}

// Whether a resolve on these right literals is refused: where one does not exist, where they do not rise, where one has the left sign.
pub fn refused_rights(
    origins: &Origins,
    clauses: &[u16],
    count: u16,
    numbers: &[u16; 7],
    n: u16,
    positive: bool,
    rises: bool,
    listed: &mut [u16; 8],
) -> Result<(), Reason>
    requires clauses_stored { ClausesStored origins.now clauses.now count }
    requires n_bound { n ≤ 4 }
    ensures { RightsTested origins.now clauses.now count numbers.now n positive rises listed.new result }
{
    match named_rights(origins, clauses, count, numbers, n, positive, listed) {
        None => Err(Reason::NotThere),
        Some(false) => {
            if rises {
                Err(Reason::WrongSigns)
            } else {
                Err(Reason::NotRising)
            }
        }
        Some(true) => {
            if rises {
                Ok(())
            } else {
                Err(Reason::NotRising)
            }
        }
    }
}
