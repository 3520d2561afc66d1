// Which clauses are in force on a day: a flag for each clause, a number since `flags_in_force` is so read by the crate standing, 1 where it is and 0 where it is not. `Flags` in specs/ of the crate force has the contracts.
#![tactic(auto)]

ghost use Rattle.std.specs.Prelude.{◌≡◌};
ghost use Rattle.force.specs.Flags.{day_flag, with_record, flags_after, flag_from, derived_flags, flags_in_force};
ghost use Rattle.record.specs.Record.{in_form, record_count, decoded_in};

use clauses::origin_code;
use following::nodes::{Origins, part_of};
use record::{Form, field, kind, record_count, record_part};
use sorts::clauses_of;
use tables::{cell, set_cell};

// The flag that a first and a last day give on a day: both are included.
fn day_flag(day: u16, first: u16, last: u16) -> u16
    ensures { result ≡ day_flag day first last }
{
    u16::from(first <= day && day <= last)
}

// The flags after a record, where c clauses stand before it: a window sets that of its clause, whatever it was, and in the new form an input clause its own.
#[tactic(auto, unfolding(force::specs::Flags::with_record))]
fn put_days(form: Form, day: u16, part: &[u8], c: usize, flags: &mut [u16])
    ensures { flags.new ≡ with_record day c (decoded_in form part.now) flags.old }
{
    match form {
        Form::Old => {
            if kind(part) == 8 {
                let flag = day_flag(day, field(part, 1), field(part, 2));
                set_cell(flags, field(part, 0) as usize, flag);
            }
        }
        Form::New => {
            if kind(part) == 4 {
                let flag = day_flag(day, field(part, 7), field(part, 8));
                set_cell(flags, c, flag);
            }
        }
    }
}

// The flags of input clauses, by the days that records give: the last ones for a clause stay.
fn put_windows(form: Form, day: u16, file: &[u8], flags: &mut [u16])
    ensures { flags.new ≡ flags_after day (in_form form file.now) (record_count (in_form form file.now)) flags.old }
{
    let mut c: usize = 0;
    for k in 0..record_count(form, file) {
        let part = record_part(form, file, k);
        put_days(form, day, part, c, flags);
        c += clauses_of(part);
    }
}

// The flag of clause c: an input clause's own; of a factor its parent's; of a resolve 1 if both its parents' are.
#[tactic(auto, unfolding(force::specs::Flags::flag_from))]
fn flag_from(origins: &Origins, c: u16, flags: &[u16]) -> u16
    ensures { result ≡ flag_from origins.now c flags.now }
{
    let code = origin_code(origins, c);
    if code == 1 {
        return cell(flags, c as usize);
    }
    let left = cell(flags, part_of(origins, c, 0) as usize);
    if code == 2 {
        return left;
    }
    if left == 1 {
        cell(flags, part_of(origins, c, 2) as usize)
    } else {
        0
    }
}

// The flags of derived clauses, each from its parents, which have smaller numbers.
#[tactic(auto, unfolding(force::specs::Flags::with_flag))]
fn derived(origins: &Origins, count: u16, flags: &mut [u16])
    ensures { flags.new ≡ derived_flags origins.now count flags.old }
{
    for c in 0..count {
        let f = flag_from(origins, c, flags);
        set_cell(flags, c as usize, f);
    }
}

// Which of so many clauses are in force on a day: by the days that the records of the file give, and the clauses' parents. The flags are 1 before.
#[tactic(auto, unfolding(force::specs::Flags::flags_in_force))]
pub fn in_force(form: Form, day: u16, file: &[u8], origins: &Origins, count: u16, flags: &mut [u16])
    ensures { flags.new ≡ flags_in_force day (in_form form file.now) origins.now count flags.old }
{
    put_windows(form, day, file, flags);
    derived(origins, count, flags);
}
