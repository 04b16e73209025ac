// The calls that read, each by itself.
ghost use Rattle.input.specs.Input.{ReadBytes, ReadDescriptor, ReadSource};

use input::{ReadFailed, Source};
use std::io::{Eprint, Read};
use std::rt::{Env, Files};

// A file in memory, or a descriptor.
pub fn claimed_source<R: Read + Drop>(
    source: Source<R>,
    file: &[u8],
    pieces: &[u32],
    buffer: &mut [u8],
) -> Result<usize, ReadFailed>
    ensures { ReadSource source file.now pieces.now buffer.old buffer.new result }
{
    input::read_source(source, file, pieces, buffer)
}

// A descriptor's reader, of a file that could not be opened none.
pub fn claimed_bytes<R: Read + Drop>(
    reader: Option<R>,
    buffer: &mut [u8],
) -> Result<usize, ReadFailed>
    ensures { ReadDescriptor reader buffer.old buffer.new result }
{
    input::read_bytes(reader, buffer)
}

// The file that an argument names.
pub fn claimed_argument_bytes<R: Env + Files + Eprint>(
    rt: &R,
    i: usize,
    buffer: &mut [u8],
) -> Result<usize, ReadFailed>
    ensures { ReadBytes buffer.old buffer.new result }
{
    input::read_argument(rt, i, buffer)
}
