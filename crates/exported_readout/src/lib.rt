// The progress of a readout in three numbers, for C. `ExportedReadout` in specs/ says what `checker_readout` promises.
#![tactic(auto)]

ghost use Rattle.std.specs.Prelude.{◌≡◌, ◌++◌, ◌≤◌, length, drop};
ghost use Rattle.pieces.specs.Placed.{rest_given};
ghost use Rattle.exported_readout.specs.ExportedReadout.{progress_numbers};

use pieces::{Piece, Rest};

// The numbers of a piece, for C: 0 all is written, 1 there is more, 2 too short; the bytes written; the clause to go on with or that it is too
// short for.
fn piece_numbers(p: Piece) -> [u64; 3]
    ensures { result ≡ progress_numbers (rest_given p.rest) p.written }
{
    let written = p.written as u64;
    match p.rest {
        Rest::Complete => [0, written, 0],
        Rest::GoOn(c) => [1, written, c as u64],
        Rest::TooShort(c) => [2, written, c as u64],
    }
}

// Writes the three numbers of a piece to the first three cells.
pub fn put_progress(p: Piece, progress: &mut [u64])
    requires { 3 ≤ length progress.old }
    ensures { progress.new ≡ progress_numbers (rest_given p.rest) p.written ++ drop 3 progress.old }
{
    progress[..3].copy_from_slice(&piece_numbers(p));
}
