// The first line of the readout: the verdict.
#![tactic(auto)]

ghost use Rattle.std.specs.Prelude.{[], ◌∷◌, ◌++◌};
ghost use Rattle.heading.specs.Heading.{given_text};
ghost use Rattle.verdict.specs.Readout.{accepted_text, refused_text};
ghost use Rattle.text.specs.Buffer.{Wrote};

use answer::Verdict;
use text::{TextBuffer, put_byte, put_decimal, put_word};

// `accepted` and the clause.
fn put_accepted(text: &mut TextBuffer, at: usize, n: u16) -> usize
    ensures { Wrote text.old text.new at result (accepted_text n) }
{
    let number = put_word(text, at, b"accepted ");
    put_decimal(text, number, n)
}

// `refused`, the reason's number, `at` and the record.
fn put_refused(text: &mut TextBuffer, at: usize, q: u8, k: u16) -> usize
    ensures { Wrote text.old text.new at result (refused_text q k) }
{
    let reason = put_word(text, at, b"refused ");
    let after = put_decimal(text, reason, q as u16);
    let number = put_word(text, after, b" at ");
    put_decimal(text, number, k)
}

// The verdict, without the line feed.
fn put_verdict(text: &mut TextBuffer, at: usize, verdict: Verdict) -> usize
    ensures { Wrote text.old text.new at result (given_text verdict) }
{
    match verdict {
        Verdict::Open => put_word(text, at, b"open"),
        Verdict::Accepted(n) => put_accepted(text, at, n),
        Verdict::Refused(q, k) => put_refused(text, at, q, k),
    }
}

// The line of the verdict.
pub fn write_verdict(verdict: Verdict, text: &mut TextBuffer, at: usize) -> usize
    ensures { Wrote text.old text.new at result (given_text verdict ++ (10 ∷ [])) }
{
    let last = put_verdict(text, at, verdict);
    put_byte(text, last, b'\n')
}
