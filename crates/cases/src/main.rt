// Runs every stored vector through the check and prints, for each file, the answer, a hash of each table, and the length and the hash of
// each of its readouts. The packs are in data/, the last one with a day before each file, and stdout has what the second implementation gives for
// the same files (`rust/vectors/README.md`).
#![tactic(auto)]

ghost use Rattle.std.specs.Prelude.{◌≡◌, ◌≤◌, length, take};

use outcomes::outcome::{Outcome, outcome_of};
use pack::{count_files, entry_at};
use program_input::day_of;
use std::rt::Files;
use std::{fmt, fs, io};

// What is wrong with a pack.
#[derive(Clone, Copy)]
enum PackError {
    Unreadable,
    TooLong,
    Cut,
}

impl fmt::Display for PackError {
    fn fmt<W: fmt::Write>(&self, f: &mut fmt::Formatter<W>) -> fmt::Result {
        match self {
            PackError::Unreadable => write!(f, "cannot be read or is empty"),
            PackError::TooLong => write!(f, "is too long"),
            PackError::Cut => write!(f, "is cut short"),
        }
    }
}

// What the check and the readout give for an entry of a pack: a file, on day 0; or, in a pack with days, what the program proofread reads. An entry
// shorter than a day is taken as a file of one byte, as there.
fn entry_outcome(entry: &[u8], has_days: bool) -> Outcome {
    if has_days {
        outcome_of(day_of(entry), entry.get(2..).unwrap_or(b"?"))
    } else {
        outcome_of(0, entry)
    }
}

// A line for each file of a pack: its place in the pack and what is given for it. What standard output does not take is lost. The loop goes from file to
// file: their number is not known before.
fn print_files<R: Print>(rt: &R, pack: &[u8], has_days: bool) {
    let mut at = 0;
    let mut place: usize = 0;
    while let Some(file) = entry_at(pack, at) {
        at = file.end;
        let outcome = entry_outcome(&pack[file], has_days);
        let _ = println!(rt; "{place} {outcome}");
        place += 1;
    }
}

// The lines of a group, if its pack is whole: its name, which is the path of its pack without `.bin`, with the number of its files, and then the files.
fn print_group<R: Print>(rt: &R, path: &str, pack: &[u8], has_days: bool) -> Result<(), PackError> {
    let files = count_files(pack).ok_or(PackError::Cut)?;
    let name = path.strip_suffix(".bin").unwrap_or(path);
    let _ = println!(rt; "{name} {files}");
    print_files(rt, pack, has_days);
    Ok(())
}

// Reads into the start of `space` until it is full, the file ends or a read fails. How many bytes came.
fn read_full<F: io::Read>(file: &mut F, space: &mut [u8]) -> usize
    ensures within { result ≤ length space.new }
    ensures prefix { result ≡ length (take result space.new) }
{
    let mut done = 0;
    while done < space.len() {
        match file.read(&mut space[done..]) {
            Ok(0) | Err(_) => break,
            Ok(n) => done += n,
        }
    }
    done
}

// Reads the pack of a group into `space` and prints its lines.
fn run_in<R: Files + Print>(
    rt: &R,
    path: &str,
    space: &mut [u8],
    has_days: bool,
) -> Result<(), PackError> {
    let mut file = fs::open(rt, path).map_err(|_| PackError::Unreadable)?;
    match read_full(&mut file, space) {
        0 => Err(PackError::Unreadable),
        n if n == space.len() => Err(PackError::TooLong),
        n => print_group(rt, path, &space[..n], has_days),
    }
}

// The same with space for a pack of up to 655,359 bytes. A group that would be longer is to be cut in two.
fn run_group<R: Files + Print>(rt: &R, path: &str, has_days: bool) -> Result<(), PackError> {
    let mut space = [0u8; 655360];
    run_in(rt, path, &mut space, has_days)
}

// All groups in order, up to the first whose pack cannot be read.
fn main(rt: HostRuntime) {
    let groups = [
        ("cases.bin", false),
        ("published.bin", false),
        ("edges.bin", false),
        ("refused.bin", false),
        ("deep.bin", false),
        ("random.bin", false),
        ("long.bin", false),
        ("days.bin", true),
    ];
    for (path, has_days) in groups {
        if let Err(error) = run_group(&rt, path, has_days) {
            let _ = println!(rt; "{path} {error}");
            return;
        }
    }
}
