// The days of clauses from the windows of an old file: cells 2n and 2n + 1 of a table are the first and last day of clause n. In specs/, `DayTable` has the
// contracts.
#![tactic(auto)]

ghost use Rattle.std.specs.Prelude.{◌≡◌, ◌<◌};
ghost use Rattle.record.specs.Record.{decoded, old_file, records};
ghost use Rattle.day_table.specs.DayTable.{with_days_of, with_window, with_windows, always_below, DaysTold};

use following::nodes::Nodes;
use record::{Form, field, kind, record_count, record_part};
use tables::set_cell;

// The two cells of clause n, written.
fn put_days(n: usize, first: u16, last: u16, days: &mut [u16])
    requires { n < 65536 }
    ensures { days.new ≡ with_days_of n first last days.old }
{
    set_cell(days, 2 * n, first);
    set_cell(days, 2 * n + 1, last);
}

// Each of 4,096 clauses is always in force.
fn put_always(days: &mut [u16])
    ensures { days.new ≡ always_below 4096 days.old }
{
    for n in 0..4096 {
        put_days(n, 0, 65535, days);
    }
}

// The table after a record: a window gives its clause its days, whatever they were.
fn put_window(part: &[u8], days: &mut [u16])
    ensures { days.new ≡ with_window (decoded part.now) days.old }
{
    if kind(part) == 8 {
        put_days(
            field(part, 0) as usize,
            field(part, 1),
            field(part, 2),
            days,
        );
    }
}

// The table after all records of a file, in their order.
fn put_windows(file: &[u8], days: &mut [u16])
    ensures { days.new ≡ with_windows (records (old_file file.now)) days.old }
{
    let count = record_count(Form::Old, file);
    for k in 0..count {
        put_window(record_part(Form::Old, file, k), days);
    }
}

// The days of each clause of an old file: those of the last window for it, and always where there is none.
pub fn window_days(file: &[u8], days: &mut Nodes)
    ensures { DaysTold (records (old_file file.now)) days.old days.new }
{
    put_always(days);
    put_windows(file, days);
}
