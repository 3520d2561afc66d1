// The answer: the verdict and the counts, and how reading can end. `Given` in specs/ says which seven numbers of document 01 an answer stands for. How the
// one comes from the other is in the crate standing.
#![tactic(auto)]

pub mod numbers;

ghost use Rattle.std.specs.Prelude.{◌≡◌};
ghost use Rattle.answer.specs.Given.{verdict_stands, answer_given, untouched_numbers};

use entry::entry::Counts;
use reasons::Reason;

// How reading ends where a record is refused: why, the record's number, and the counts before it.
#[derive(Clone, Copy)]
pub struct Refused {
    pub reason: Reason,
    pub number: u16,
    pub counts: Counts,
}

// No empty clause in force; the lowest number of one; or a refusal's number, as document 01 and the C interface give it, and its record.
#[derive(Clone, Copy)]
pub enum Verdict {
    Open,
    Accepted(u16),
    Refused(u8, u16),
}

// The verdict, and how many symbols, rows, clauses and bindings there are.
#[derive(Clone, Copy)]
pub struct Answer {
    pub verdict: Verdict,
    pub symbols: u16,
    pub rows: u16,
    pub clauses: u16,
    pub bindings: u16,
}

// Whether all records of the file stand.
pub fn stands(verdict: Verdict) -> bool
    ensures { result ≡ verdict_stands verdict }
{
    match verdict {
        Verdict::Open => true,
        Verdict::Accepted(n) => true,
        Verdict::Refused(q, k) => false,
    }
}

// A verdict with its counts.
pub fn with_counts(verdict: Verdict, counts: Counts) -> Answer
    ensures { result ≡ record { verdict = verdict; symbols = counts.symbols; rows = counts.rows; clauses = counts.clauses; bindings = counts.bindings } }
{
    Answer {
        verdict,
        symbols: counts.symbols,
        rows: counts.rows,
        clauses: counts.clauses,
        bindings: counts.bindings,
    }
}

// A file or tables that cannot be read: the refusal's number, record 0 and no counts.
pub fn untouched(q: u8) -> Answer
    ensures { answer_given result ≡ untouched_numbers q }
{
    with_counts(
        Verdict::Refused(q, 0),
        Counts {
            symbols: 0,
            rows: 0,
            clauses: 0,
            bindings: 0,
        },
    )
}
