// The numbers that records get: symbols, rows and clauses are counted each for themselves.
ghost use Rattle.std.specs.Prelude.{◌≡◌, List, ℕ};
ghost use Rattle.record.specs.Record.{decoded};
ghost use Rattle.verdict.specs.Refusal.{kind_of_record};
ghost use Rattle.marking.specs.Marking.{own_number};
ghost use Rattle.write_trimmed.specs.Places.{next_of, Growing, After};

use record::kind;

// Where the next record goes, and the numbers that the next symbol, row and clause get.
#[derive(Clone, Copy)]
pub struct Place {
    pub at: usize,
    pub symbol: u16,
    pub row: u16,
    pub clause: u16,
}

// The number that a record gets; 0 for one that has none.
pub fn own_number(part: &[u8], place: Place) -> u16
    ensures { (symbols rows clauses : List ℕ) → result ≡ own_number symbols rows clauses (next_of place) (kind_of_record (decoded part.now)) }
{
    match kind(part) {
        1 => place.symbol,
        2..=3 => place.row,
        4..=7 => place.clause,
        _ => 0,
    }
}

// The place after a record.
pub fn place_after(part: &[u8], place: Place) -> Place
    requires { Growing place }
    ensures { After place (kind_of_record (decoded part.now)) result }
{
    let next = Place {
        at: place.at + 16,
        ..place
    };
    match kind(part) {
        1 => Place {
            symbol: place.symbol + 1,
            ..next
        },
        2..=3 => Place {
            row: place.row + 1,
            ..next
        },
        4..=7 => Place {
            clause: place.clause + 1,
            ..next
        },
        _ => next,
    }
}
