// A record of kind 8: the first and the last day of an input clause. It is no clause, and no table has it.
// `Window` in specs/ has the contract.
#![tactic(auto)]

ghost use Rattle.std.specs.Prelude.{◌≡◌};
ghost use Rattle.window_entry.specs.Window.{window_entered};

use clauses::origin_code;
use entry::entry::Counts;
use following::nodes::Origins;
use reasons::Reason;
use record::field;
use step_fields::step_in_range;

// The tests of a window: the origin of a clause that is not there has code 0, and that of a derived one a code above 1.
pub fn window_record(part: &[u8], counts: Counts, origins: &Origins) -> Result<Counts, Reason>
    ensures { result ≡ window_entered part.now counts origins.now }
{
    if !step_in_range(part, 3) {
        return Err(Reason::OutOfRange);
    }
    if origin_code(origins, field(part, 0)) != 1 {
        return Err(Reason::NotThere);
    }
    if field(part, 2) < field(part, 1) {
        return Err(Reason::CrossedDays);
    }
    Ok(counts)
}
