// The input, read to its end. A part of a file is no file: where a read fails there is no input, and so no verdict.
ghost use Rattle.std.specs.Prelude.{IfOk};
ghost use Rattle.printing.specs.Input.{IsPrefixLen};

use read_answer::taken;
use std::io;
use std::ops::ControlFlow;

// Reads into `space` until the input ends or the space is full. How many bytes came; or why a read failed.
pub fn read_input<R: io::Read>(reader: &mut R, space: &mut [u8]) -> io::Result<usize>
    ensures { IfOk result (λ n. IsPrefixLen n space.new) }
{
    let mut done = 0;
    while done < space.len() {
        match taken(done, reader.read(&mut space[done..])) {
            ControlFlow::Continue(n) => done += n,
            ControlFlow::Break(input) => return input,
        }
    }
    Ok(done)
}

#[cfg(test)]
mod tests {
    use super::*;

    // Gives so many bytes, one at a time, and then fails.
    #[derive(Drop)]
    struct Failing(u8);

    impl io::Read for Failing {
        fn read(&mut self, buf: &mut [u8]) -> io::Result<usize> {
            if self.0 == 0 || buf.is_empty() {
                return Err(io::Error::from(io::ErrorKind::Other));
            }
            self.0 -= 1;
            buf[0] = b'x';
            Ok(1)
        }
    }

    #[test]
    fn an_input_is_read_to_its_end_or_until_the_space_is_full(rt: HostRuntime) {
        let mut space = [0u8; 4];
        let shorter = read_input(&mut &b"abc"[..], &mut space);
        assert!(rt; matches!(shorter, Ok(3)));
        assert!(rt; space.starts_with(b"abc".as_slice()));
        let longer = read_input(&mut &b"defgh"[..], &mut space);
        assert!(rt; matches!(longer, Ok(4)));
        assert!(rt; space == *b"defg");
    }

    #[test]
    fn an_input_is_broken_by_a_read_that_fails_midway(rt: HostRuntime) {
        let mut space = [0u8; 4];
        let broken = read_input(&mut Failing(2), &mut space);
        assert!(rt; broken.is_err_and(|error| error.kind() == io::ErrorKind::Other));
        let whole = read_input(&mut Failing(5), &mut space);
        assert!(rt; matches!(whole, Ok(4)));
    }
}
