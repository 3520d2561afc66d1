// The answer of a function that writes a file, as the program gives it: the length of the file, or why none is written. In specs/, `Given` has its four numbers,
// and those of an input file's own refusal.
#![tactic(auto)]

ghost use Rattle.std.specs.Prelude.{◌≡◌};
ghost use Rattle.writing_answer.specs.Given.{reason_given, own_refusal};

use answer::Verdict;

// Why a file is not written; `number` has the number of documents 01 and 02.
#[derive(Clone, Copy, PartialEq, Eq)]
pub enum WritingReason {
    ShortOutput,
    StepInInput,
    OtherSymbol,
    TooManyMerged,
    TooManyConverted,
    NoneAccepted,
    OwnRefusal(u8),
}

// No file is written: why, the input file that it is about (0 for none, 1 for the first or only one, 2 for the second), and the record at which it is.
#[derive(Clone, Copy, PartialEq, Eq)]
pub struct NotWritten {
    pub reason: WritingReason,
    pub file: u8,
    pub at: u16,
}

impl WritingReason {
    // The reason's number; an input file's own refusal has that of its check.
    pub fn number(self) -> u8
        ensures { result ≡ reason_given self }
    {
        match self {
            WritingReason::ShortOutput => 2,
            WritingReason::StepInInput => 17,
            WritingReason::OtherSymbol => 18,
            WritingReason::TooManyMerged => 19,
            WritingReason::TooManyConverted => 22,
            WritingReason::NoneAccepted => 23,
            WritingReason::OwnRefusal(number) => number,
        }
    }
}

// Nothing where an input file stands; or its own refusal, with the file's number.
pub fn standing(verdict: Verdict, file: u8) -> Result<(), NotWritten>
    ensures { result ≡ own_refusal file verdict }
{
    match verdict {
        Verdict::Open => Ok(()),
        Verdict::Accepted(_) => Ok(()),
        Verdict::Refused(number, at) => Err(NotWritten {
            reason: WritingReason::OwnRefusal(number),
            file,
            at,
        }),
    }
}
