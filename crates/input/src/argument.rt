// Files that a program's arguments name.
ghost use Rattle.std.specs.Prelude.{IsNone};
ghost use Rattle.input.specs.Input.{ReadBytes, ReadDescriptor, opened_reader};

use crate::{Noted, ReadFailed, read_bytes, say};
use std::env::{Env, FillError};
use std::io::{Eprint, Error, ErrorKind, Read};
use std::rt::Files;
use std::{fs, io};

// How many arguments the program was started with, its own name among them.
pub fn argument_count(rt: &impl Env) -> usize {
    for i in 0..usize::MAX {
        if let Err(FillError::NotPresent) = rt.arg(i, &mut []) {
            return i;
        }
    }
    usize::MAX
}

// The argument i, in the buffer; of one that is missing or has no room there, nothing.
pub fn argument_text<'a>(rt: &impl Env, i: usize, buffer: &'a mut [u8]) -> &'a [u8] {
    match rt.arg(i, buffer) {
        Ok(size) => &buffer[..size],
        Err(_) => &[],
    }
}

// What reads an open file; and why there is nothing that does.
fn reader_of<F>(opened: io::Result<F>) -> (Option<Noted<F>>, Error)
    ensures { IsNone (opened_reader opened) → IsNone result.0 }
{
    match opened {
        Ok(file) => (Some(Noted::new(file)), Error::from(ErrorKind::Other)),
        Err(error) => (None, error),
    }
}

// Reads an open file and closes it; of one that cannot be opened or read, standard error says why.
fn read_named<F: Read + Drop>(
    rt: &impl Eprint,
    opened: io::Result<F>,
    name: &str,
    buffer: &mut [u8],
) -> Result<usize, ReadFailed>
    ensures { ReadDescriptor (opened_reader opened) buffer.old buffer.new result }
{
    let (mut reader, refusal) = reader_of(opened);
    let read = read_bytes(reader.as_mut(), buffer);
    if read.is_err() {
        let error = match &reader {
            Some(reader) => reader.error(),
            None => refusal,
        };
        say(rt, name, error);
    }
    read
}

// The system's numbers of the errors of an argument that is missing, of one that is too long, and of one that is no text.
const INVALID: i32 = 22;

const TOO_LONG: i32 = 36;

const NOT_TEXT: i32 = 84;

// The path that the argument i is.
fn path_of<'a>(rt: &impl Env, i: usize, path: &'a mut [u8]) -> io::Result<&'a str> {
    let length = match rt.arg(i, path) {
        Ok(length) => length,
        Err(FillError::NotPresent) => return Err(Error::from_raw_os_error(INVALID)),
        Err(FillError::TooLong) => return Err(Error::from_raw_os_error(TOO_LONG)),
    };
    match std::str::from_utf8(&path[..length]) {
        Ok(path) => Ok(path),
        Err(_) => Err(Error::from_raw_os_error(NOT_TEXT)),
    }
}

// Reads the file that the argument i names, as many bytes as the buffer has room for.
pub fn read_argument<R: Env + Files + Eprint>(
    rt: &R,
    i: usize,
    buffer: &mut [u8],
) -> Result<usize, ReadFailed>
    ensures { ReadBytes buffer.old buffer.new result }
{
    let mut path = [0u8; 4096];
    match path_of(rt, i, &mut path) {
        Ok(path) => read_named(rt, fs::open(rt, path), path, buffer),
        Err(error) => read_named::<R::File>(rt, Err(error), "path", buffer),
    }
}
