// What the programs share of input and output: a buffer read full, an argument, a file that an argument names, and a line that says why a call failed.

#![tactic(auto)]

ghost use Rattle.std.specs.Prelude.{◌≡◌, ◌<◌, length, take, IfOk, IfSome};
ghost use Rattle.std.specs.Io.{ReadsAtMost};
ghost use Rattle.std.specs.Io.KnownBytes.{Consumes, IsAtEnd};
ghost use Rattle.console.specs.Lengths.{IsPrefixLength};

use std::alloc::Global;
use std::env::{Env, FillError};
use std::fs::File;
use std::io::{ErrorKind, Print, Read, Stdin};
use std::rt::Files;
use std::{io, str};

// Reads until the buffer is full or the input ends, and returns how many bytes it put at the buffer's start. After a read that failed the buffer's
// bytes are not known.
pub fn read_full<R: Read>(input: &mut R, buffer: &mut [u8]) -> io::Result<usize>
    ensures bound { ReadsAtMost result buffer.new }
    ensures bytes { IfOk result (λ n. Consumes (R.remaining input.old) (R.remaining input.new) (take n buffer.new)) }
    ensures end { IfOk result (λ n. n < length buffer.new → IsAtEnd (R.remaining input.new)) }
{
    let mut done = 0;
    while done < buffer.len() {
        let read = input.read(&mut buffer[done..])?;
        if read == 0 {
            break;
        }
        done += read;
    }
    Ok(done)
}

// The argument of this number, put at the buffer's start, and its length: 0 where it is longer than the buffer, and `None` where there is none. The
// program's own name is argument 0.
pub fn argument(runtime: &impl Env, number: usize, buffer: &mut [u8]) -> Option<usize>
    ensures { IfSome result (λ n. IsPrefixLength n buffer.new) }
{
    match runtime.arg(number, buffer) {
        Ok(length) => Some(length),
        Err(FillError::TooLong) => Some(0),
        Err(FillError::NotPresent) => None,
    }
}

// The file of this name, to be read. A name that is no UTF-8 is refused.
pub fn open<R: Files>(runtime: &R, name: &[u8]) -> io::Result<R::File> {
    match str::from_utf8(name) {
        Ok(path) => File::open(runtime, path),
        Err(_) => Err(io::Error::from(ErrorKind::InvalidFilename)),
    }
}

// Why the call failed, without the system's number of the error behind it.
fn reason(text: &str) -> &str {
    match text.split_once(" (os error ") {
        Some((reason, _)) => reason,
        None => text,
    }
}

// A line: what failed, as the caller names it, a colon and why.
pub fn fail(output: &impl Print, alloc: Global, what: &[u8], error: &io::Error) -> io::Result<()> {
    let text = format!(in alloc; "{error}")?;
    let reason = reason(text.as_str());
    output.write_all(what)?;
    println!(output; ": {reason}")
}

// What a program reads.
#[derive(Drop)]
pub enum Input {
    File(File),
    Stdin(Stdin),
}

impl Read for Input {
    fn read(&mut self, buf: &mut [u8]) -> io::Result<usize> {
        match self {
            Input::File(file) => file.read(buf),
            Input::Stdin(stdin) => stdin.read(buf),
        }
    }
}

// Runs `run` on the file that the first argument names, or on standard input where there is none. That a file cannot be opened is said on standard
// error.
pub fn with_input<F: FnOnce(Input) -> io::Result<()>>(rt: &HostRuntime, run: F) -> io::Result<()>
    requires { F.IsAlwaysCallable run }
{
    let mut path = [0; 4096];
    let Some(length) = argument(rt, 1, &mut path) else {
        return run(Input::Stdin(rt.stdin()));
    };
    let name = &path[..length];
    match open(rt, name) {
        Ok(file) => run(Input::File(file)),
        Err(error) => fail(&rt.stderr(), rt.alloc(), name, &error),
    }
}

#[cfg(test)]
mod tests {
    use super::*;
    use std::test::Fail;

    // Gives its bytes one a read, and then fails.
    #[derive(Drop)]
    struct Broken<'a>(&'a [u8]);

    impl Read for Broken<'_> {
        fn read(&mut self, buf: &mut [u8]) -> io::Result<usize> {
            if self.0.is_empty() {
                return Err(io::Error::other("the line is down"));
            }
            if buf.is_empty() {
                return Ok(0);
            }
            buf[0] = self.0[0];
            self.0 = &self.0[1..];
            Ok(1)
        }
    }

    #[test]
    fn fills_the_buffer_or_comes_to_the_end(rt: HostRuntime) -> Result<(), Fail> {
        let mut buffer = [0u8; 4];
        let mut input = b"ab".as_slice().chain(b"cdefg".as_slice());
        assert_eq!(rt; read_full(&mut input, &mut buffer)?, 4);
        assert_eq!(rt; buffer.as_slice(), b"abcd".as_slice());
        assert_eq!(rt; read_full(&mut input, &mut buffer)?, 3);
        assert_eq!(rt; buffer.as_slice(), b"efgd".as_slice());
        assert_eq!(rt; read_full(&mut input, &mut buffer)?, 0);
        assert_eq!(rt; read_full(&mut input, &mut [])?, 0);
        Ok(())
    }

    #[test]
    fn passes_a_failed_read_on(rt: HostRuntime) {
        let mut buffer = [0u8; 4];
        let mut input = Broken(b"abcde");
        assert_eq!(rt; read_full(&mut input, &mut buffer).ok(), Some(4));
        assert!(rt; read_full(&mut input, &mut buffer).is_err());
    }

    #[test]
    fn tells_why_without_the_number(rt: HostRuntime) {
        assert_eq!(rt; reason("Is a directory (os error 21)"), "Is a directory");
        assert_eq!(rt; reason("invalid filename"), "invalid filename");
    }

    #[test]
    fn has_its_name_and_no_argument(rt: HostRuntime) {
        let mut buffer = [0u8; 4096];
        assert!(rt; argument(&rt, 0, &mut buffer).is_some());
        assert_eq!(rt; argument(&rt, 0, &mut [0u8; 1]), Some(0));
        assert!(rt; argument(&rt, 9, &mut buffer).is_none());
    }

    #[test]
    fn opens_no_name_that_is_no_text(rt: HostRuntime) {
        assert!(rt; open(&rt, b"\xFF").is_err());
        assert!(rt; open(&rt, b"").is_err());
    }
}
