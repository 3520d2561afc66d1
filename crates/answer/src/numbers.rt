// A verdict and an answer in numbers, for callers in other languages and for printing.
ghost use Rattle.std.specs.Prelude.{◌≡◌};
ghost use Rattle.answer.specs.Given.{verdict_coded, answer_given};

use super::{Answer, Verdict};

// The three numbers of a verdict: 0 open, 1 accepted, 2 refused; the clause or the reason; the record.
impl From<Verdict> for [u16; 3] {
    ghost from_gives = { λ v numbers. numbers ≡ verdict_coded v };

    fn from(v: Verdict) -> [u16; 3] {
        match v {
            Verdict::Open => [0, 0, 0],
            Verdict::Accepted(c) => [1, c, 0],
            Verdict::Refused(q, k) => [2, u16::from(q), k],
        }
    }
}

// The seven numbers of an answer: its verdict's, and the counts.
impl From<Answer> for [u16; 7] {
    ghost from_gives = { λ a numbers. numbers ≡ answer_given a };

    fn from(a: Answer) -> [u16; 7] {
        let [kind, what, record] = <[u16; 3]>::from(a.verdict);
        [kind, what, record, a.symbols, a.rows, a.clauses, a.bindings]
    }
}
