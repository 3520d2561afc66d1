// The cells of a board that is opened: every input clause is present. In specs/, `Filling` says how this program goes about it; what the cells are to be, the crate
// boards has.
#![tactic(auto)]

mod children;

ghost use Rattle.std.specs.Prelude.{◌≡◌};
ghost use Rattle.record.specs.Record.{old_file};
ghost use Rattle.answer.specs.Given.{all_set};
ghost use Rattle.force.specs.Flags.{flags_in_force};
ghost use Rattle.board_opening.specs.Filling.{first_cell, cells_put, filled_board, Fillable};

use children::put_children;
use flagging::in_force;
use following::nodes::Origins;
use record::Form;
use tables::{cell, clear, set_cell};

// The cell of clause n without its last child: it stands, and its flag says whether it is in force.
#[tactic(auto, unfolding(crate::specs::Filling::first_cell))]
fn first_cell(flags: &[u16], n: u16) -> u16
    ensures { result ≡ first_cell flags.now n }
{
    if cell(flags, n as usize) == 1 { 7 } else { 5 }
}

// So the cells of the first clauses.
fn put_cells(flags: &[u16], count: u16, board: &mut [u16])
    ensures { board.new ≡ cells_put flags.now count board.old }
{
    for n in 0..count {
        let x = first_cell(flags, n);
        set_cell(board, n as usize, x);
    }
}

// All cells of a board, by flags that say which clauses are in force.
fn fill(day: u16, file: &[u8], clauses: &[u16], flags: &[u16], count: u16, board: &mut [u16])
    requires { Fillable count board.old }
    ensures { board.new ≡ filled_board day (old_file file.now) clauses.now flags.now count board.old }
{
    clear(board, 0, 4096);
    set_cell(board, 4096, day);
    put_cells(flags, count, board);
    put_children(file, clauses, count, board);
}

// The board of a file that stands, of so many clauses, on a day, with all its input clauses present.
pub fn open_cells(
    day: u16,
    file: &[u8],
    clauses: &[u16],
    origins: &Origins,
    count: u16,
    board: &mut [u16],
)
    requires { Fillable count board.old }
    ensures { board.new ≡ filled_board day (old_file file.now) clauses.now (flags_in_force day (old_file file.now) origins.now count all_set) count board.old }
{
    let mut flags = [1u16; 4096];
    in_force(Form::Old, day, file, origins, count, &mut flags);
    fill(day, file, clauses, &flags, count, board);
}
