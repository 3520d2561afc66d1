// Why a record, a file or its tables are refused. `Reasons` in specs/ says which reason of document 01 each variant is.
#![tactic(auto)]

ghost use Rattle.std.specs.Prelude.{◌≡◌};
ghost use Rattle.verdict.specs.Refusal.{reason_number};
ghost use Rattle.reasons.specs.Reasons.{meant};

use following::failure::Failure;

// The reasons of document 01 (1 to 13; 10 to 13 are the failures of unification) and document 02 (14 and 16), in the order of their numbers. 6 is not given any more, and 15 is no reason of a check.
#[derive(Clone, Copy, PartialEq, Eq)]
pub enum Reason {
    BadLength,
    ShortTable,
    BadKind,
    OutOfRange,
    NotThere,
    VariableLiteral,
    WrongSigns,
    TooLarge,
    Unification(Failure),
    NotRising,
    CrossedDays,
}

impl Reason {
    // The number that the answer gives.
    pub fn number(self) -> u8
        ensures { result ≡ reason_number (meant self) }
    {
        match self {
            Reason::BadLength => 1,
            Reason::ShortTable => 2,
            Reason::BadKind => 3,
            Reason::OutOfRange => 4,
            Reason::NotThere => 5,
            Reason::VariableLiteral => 7,
            Reason::WrongSigns => 8,
            Reason::TooLarge => 9,
            Reason::Unification(failure) => failure.number(),
            Reason::NotRising => 14,
            Reason::CrossedDays => 16,
        }
    }
}
