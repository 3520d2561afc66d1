// What comes after the check of a file that is to be converted: the number of records is looked at, and then the file is written. In specs/,
// `Rewritten` says how the parts of this program go about it.
#![tactic(auto)]

ghost use Rattle.record.specs.Record.{in_form, old_file, new_file};
ghost use Rattle.rewriting.specs.Rewritten.{Convertible, Rewritten};

use convert_new::new_count;
use convert_new::record_writing::write_new;
use convert_old::old_count;
use convert_old::record_writing::write_old;
use day_table::window_days;
use following::nodes::Nodes;
use record::Form;
use writing_answer::{NotWritten, WritingReason};

// An old file in the new form, at the start of the output. The node table is free after the check, and takes the days.
fn rewrite_old(file: &[u8], nodes: &mut Nodes, output: &mut [u8]) -> Result<u32, NotWritten>
    requires { Convertible (old_file file.now) output.old }
    ensures { Rewritten (old_file file.now) output.old result output.new }
{
    if 3276 < new_count(file) {
        return Err(NotWritten {
            reason: WritingReason::TooManyConverted,
            file: 0,
            at: 0,
        });
    }
    window_days(file, nodes);
    let end = write_new(file, nodes, output);
    Ok(end as u32)
}

// A new file in the old form.
fn rewrite_new(file: &[u8], output: &mut [u8]) -> Result<u32, NotWritten>
    requires { Convertible (new_file file.now) output.old }
    ensures { Rewritten (new_file file.now) output.old result output.new }
{
    if 4096 < old_count(file) {
        return Err(NotWritten {
            reason: WritingReason::TooManyConverted,
            file: 0,
            at: 0,
        });
    }
    let end = write_old(file, output);
    Ok(end as u32)
}

// A file of a form in the other one, if that has not too many records.
pub fn rewrite(
    form: Form,
    file: &[u8],
    nodes: &mut Nodes,
    output: &mut [u8],
) -> Result<u32, NotWritten>
    requires { Convertible (in_form form file.now) output.old }
    ensures { Rewritten (in_form form file.now) output.old result output.new }
{
    match form {
        Form::Old => rewrite_old(file, nodes, output),
        Form::New => rewrite_new(file, output),
    }
}
