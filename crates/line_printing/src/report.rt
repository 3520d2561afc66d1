// What standard error is told, by the program whose readout it is. Where standard error takes nothing there is nobody to tell.
use numbering::Naming;
use std::io::{Error, ErrorKind};

// The program whose readout has its variables named in one way.
fn program(naming: Naming) -> &'static str {
    match naming {
        Naming::ByIndex => "proofread",
        Naming::ByAppearance => "proofread_canonical",
    }
}

// How the program is used.
pub fn usage<R: Eprint>(rt: &R, naming: Naming) {
    let name = program(naming);
    let _ = eprintln!(rt;
        "{name} takes no arguments; it reads two bytes of day, low byte first, and a proof file from standard input: {name} < DAY_AND_FILE"
    );
}

// Why the input could not be read, with the error of the read that failed.
pub fn unread<R: Eprint + Alloc>(rt: &R, naming: Naming, error: Error) {
    fail(rt, naming, "standard input", error);
}

// Why the output could not be written, unless nobody reads it any more, with the error of the write that failed.
pub fn unwritten<R: Eprint + Alloc>(rt: &R, naming: Naming, error: Error) {
    if error.kind() != ErrorKind::BrokenPipe {
        fail(rt, naming, "standard output", error);
    }
}

// A line: the program, what failed, and the system's words for the error. The number that an error's text ends in is left out, unless there is no memory to
// take the text apart.
fn fail<R: Eprint + Alloc>(rt: &R, naming: Naming, what: &str, error: Error) {
    let name = program(naming);
    let _ = match format!(in rt.alloc(); "{error}") {
        Ok(text) => {
            let reason = words_of(text.as_str());
            eprintln!(rt; "{name}: {what}: {reason}")
        }
        Err(_) => eprintln!(rt; "{name}: {what}: {error}"),
    };
}

// The words of an error's text, before its number.
fn words_of(text: &str) -> &str {
    text.split_once(" (os error ")
        .map_or(text, |(words, _)| words)
}
