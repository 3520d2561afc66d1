// Whether a file and four tables have lengths with which a check can begin.
#![tactic(auto)]

ghost use Rattle.std.specs.Prelude.{◌≡◌};
ghost use Rattle.verdict.specs.Verdict.{fitting_length, long_enough};

use record::Form;

// Whether a file's length is at most 65,536 and a multiple of 16; in the new form at most 65,520 and a multiple of 20.
pub fn fitting_length(form: Form, n: usize) -> bool
    ensures { result ≡ fitting_length form n }
{
    match form {
        Form::Old => n <= 65536 && n % 16 == 0,
        Form::New => n <= 65520 && n % 20 == 0,
    }
}

// Whether each table has at least its named part.
pub fn long_enough(symbols: usize, rows: usize, clauses: usize, bindings: usize) -> bool
    ensures { result ≡ long_enough (record { symbols = symbols; rows = rows; clauses = clauses; bindings = bindings }) }
{
    4096 <= symbols && 4096 <= rows && 20480 <= clauses && 32768 <= bindings
}
