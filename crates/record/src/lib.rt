// The records of a proof file: sixteen bytes each, or twenty in the new form, handed out as a part of the caller's file and never copied. Every
// function here takes any number and any bytes.
#![tactic(auto)]

ghost use Rattle.std.specs.Prelude.{◌≡◌, get_or};
ghost use Rattle.record.specs.Record.{in_form, record_length, record_count, record_part, kind_of, count_of, field_of};

// The form of a file: sixteen bytes a record, or twenty with the days beside a clause.
#[derive(Clone, Copy, PartialEq, Eq)]
pub enum Form {
    Old,
    New,
}

// How many bytes a record has.
fn record_size(form: Form) -> usize
    ensures { result ≡ record_length form }
{
    match form {
        Form::Old => 16,
        Form::New => 20,
    }
}

// How many records are wholly inside the file.
pub fn record_count(form: Form, file: &[u8]) -> usize
    ensures { result ≡ record_count (in_form form file.now) }
{
    // Divided by two known numbers: by `record_size(form)` it would be a division in earnest for each record that is read.
    match form {
        Form::Old => file.len() / 16,
        Form::New => file.len() / 20,
    }
}

// The part of the file that is record k, or the empty part where k is not wholly inside.
pub fn record_part(form: Form, file: &[u8], k: usize) -> &[u8]
    ensures { result.now ≡ record_part (in_form form file.now) k }
{
    if k < record_count(form, file) {
        let size = record_size(form);
        let from = size * k;
        &file[from..from + size]
    } else {
        &[]
    }
}

// A byte of a record, 0 past its end.
fn byte(part: &[u8], i: usize) -> u8
    ensures { result ≡ get_or part.now i 0 }
{
    part.get(i).copied().unwrap_or(0)
}

// Byte 0 of a record: its kind.
pub fn kind(part: &[u8]) -> u8
    ensures { result ≡ kind_of part.now }
{
    byte(part, 0)
}

// Byte 1 of a record: its count.
pub fn count(part: &[u8]) -> u8
    ensures { result ≡ count_of part.now }
{
    byte(part, 1)
}

// Field i of a record, 0 for field a.
pub fn field(part: &[u8], i: u8) -> u16
    ensures { result ≡ field_of part.now i }
{
    let at = 2 * usize::from(i);
    let low = byte(part, at + 2);
    let high = byte(part, at + 3);
    u16::from_le_bytes([low, high])
}
