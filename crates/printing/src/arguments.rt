// The arguments of a program that takes none.
use std::env::FillError;
use std::rt::Env;

// Whether there are any, after the program's name. None is read.
pub fn has_arguments<R: Env>(rt: &R) -> bool {
    let mut first = [0u8; 1];
    !matches!(rt.arg(1, &mut first), Err(FillError::NotPresent))
}
