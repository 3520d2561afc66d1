// The end of a step: one that went through is entered, and a refused one leaves no binding behind. `Stepping` in specs/ of the crate inference
// has the contracts.
#![tactic(auto)]

ghost use Rattle.std.specs.Prelude.{◌≡◌, ◌∷◌};
ghost use Rattle.inference.specs.Stepping.{Finishing, finished, step_finished};

use entry::entry::Counts;
use entry::rows::put_cells;
use following::failure::Failure;
use following::nodes::Origins;
use reasons::Reason;
use tables::{clear, put_clause};
use unify::Unified;

// A step that went through is entered, with its code and its fields in the table of origins; a refused one has its bindings cleared away again.
pub fn finish_step(
    u: Result<Unified, Failure>,
    k: u16,
    counts: Counts,
    literals: u16,
    index: u16,
    code: u16,
    numbers: &[u16; 7],
    clauses: &mut [u16],
    bindings: &mut [u16],
    origins: &mut Origins,
) -> Result<Counts, Reason>
    requires { Finishing counts bindings.old origins.old numbers.now u }
    ensures { finished result clauses.new bindings.new origins.new ≡ step_finished u k counts literals index (code ∷ numbers.now) clauses.old bindings.old origins.old }
{
    let held = counts.bindings;
    match u {
        Ok(left) => {
            let n = counts.clauses;
            put_cells(origins, n, code, numbers);
            put_clause(clauses, n, k, literals, index, held, left.held - held);
            Ok(Counts {
                clauses: n + 1,
                bindings: left.held,
                ..counts
            })
        }
        Err(f) => {
            clear(bindings, 4 * (held as usize), 32768);
            Err(Reason::Unification(f))
        }
    }
}
