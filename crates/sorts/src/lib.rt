// How many clauses a record makes, by its kind. `Sorts` in specs/ of the crate record says which records make one.
#![tactic(auto)]

ghost use Rattle.std.specs.Prelude.{◌≡◌};
ghost use Rattle.record.specs.Record.{decoded};
ghost use Rattle.record.specs.Sorts.{is_clause, one};

use record::kind;

// One of kind 4 to 7 makes one, and every other none.
pub fn clauses_of(part: &[u8]) -> usize
    ensures { result ≡ one (is_clause (decoded part.now)) }
{
    usize::from(matches!(kind(part), 4..=7))
}
