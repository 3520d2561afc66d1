// The days beside a record of the new form (document 02, Q-11): whether they refuse it, and whether those of an input clause are in order. `Beside` in specs/ has the contracts.
#![tactic(auto)]

ghost use Rattle.std.specs.Prelude.{◌≡◌};
ghost use Rattle.record.specs.Record.{decoded_in};
ghost use Rattle.verdict.specs.Refusal.{in_order};
ghost use Rattle.beside.specs.Beside.{refused_days, refused_new_days};

use reasons::Reason;
use record::{Form, field, kind};

// Whether the days of an input clause do not cross; in the old form it has none.
pub fn days_in_order(form: Form, part: &[u8]) -> bool
    ensures { result ≡ in_order (decoded_in form part.now).days }
{
    match form {
        Form::Old => true,
        Form::New => field(part, 7) <= field(part, 8),
    }
}

// Whether a record of the new form is refused by its kind or its days.
fn refused_new_days(part: &[u8]) -> Result<(), Reason>
    ensures { result ≡ refused_new_days part.now }
{
    let tag = kind(part);
    if tag < 1 {
        return Err(Reason::BadKind);
    }
    if 7 < tag {
        return Err(Reason::BadKind);
    }
    if tag == 4 {
        return Ok(());
    }
    if field(part, 7) != 0 {
        return Err(Reason::OutOfRange);
    }
    if field(part, 8) != 0 {
        Err(Reason::OutOfRange)
    } else {
        Ok(())
    }
}

// The same of either form: in the old one no record is.
pub fn refused_days(form: Form, part: &[u8]) -> Result<(), Reason>
    ensures { result ≡ refused_days form part.now }
{
    match form {
        Form::Old => Ok(()),
        Form::New => refused_new_days(part),
    }
}
