// An old file in the new form: how many records it has there, and those records written. In specs/, `NewFile` has the contracts; what the new form of a file
// is, the crate converting has.
#![tactic(auto)]

pub mod record_writing;

ghost use Rattle.std.specs.Prelude.{◌≡◌, length};
ghost use Rattle.record.specs.Record.{decoded, old_file, records};
ghost use Rattle.record.specs.Sorts.{one};
ghost use Rattle.converting.specs.Converting.{to_new_records};
ghost use Rattle.convert_new.specs.NewFile.{is_kept};

use record::{Form, kind, record_count, record_part};

// 1 for a record that remains, and 0 for a window.
fn kept(part: &[u8]) -> usize
    ensures { result ≡ one (is_kept (decoded part.now)) }
{
    (kind(part) != 8) as usize
}

// How many records the file has in the new form: all but the windows.
pub fn new_count(file: &[u8]) -> usize
    ensures { result ≡ length (to_new_records (records (old_file file.now))) }
{
    let count = record_count(Form::Old, file);
    let mut n: usize = 0;
    for k in 0..count {
        n += kept(record_part(Form::Old, file, k));
    }
    n
}
