// Why a read or a write failed, and the line on standard error that says so.
use arrayvec::ArrayString;
use std::fmt::Write;
use std::io::{Eprint, Error, ErrorKind, Read, Result};

// A reader, and the error of its last read that failed.
#[derive(Drop)]
pub struct Noted<R> {
    reader: R,
    error: Option<Error>,
}

impl<R> Noted<R> {
    pub fn new(reader: R) -> Noted<R> {
        Noted {
            reader,
            error: None,
        }
    }

    pub fn error(&self) -> Error {
        self.error.unwrap_or(Error::from(ErrorKind::Other))
    }
}

impl<R: Read> Read for Noted<R> {
    fn read(&mut self, buffer: &mut [u8]) -> Result<usize> {
        let read = self.reader.read(buffer);
        if let Err(error) = read {
            self.error = Some(error);
        }
        read
    }
}

// Room for the text of every error of the system, with its number.
const ROOM: usize = 128;

// The words of an error's text, without the number that the system gives it.
fn words(text: &str) -> &str {
    match text.split_once(" (os error ") {
        Some((words, _)) => words,
        None => text,
    }
}

// Writes a line to standard error: what failed, a colon and why.
pub fn say(rt: &impl Eprint, what: &str, error: Error) {
    let mut text = ArrayString::<ROOM>::new();
    let _ = write!(text, "{error}");
    let why = words(text.as_str());
    let _ = eprintln!(rt; "{what}: {why}");
}
