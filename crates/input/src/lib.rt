// A file's bytes: of standard input, of a file that an argument names, or of a file in memory.

#![tactic(auto)]

mod argument;
mod said;
mod source;

ghost use Rattle.input.specs.Input.{ReadSource, ReadDescriptor};

pub use argument::{argument_count, argument_text, read_argument};
pub use said::{Noted, say};
pub use source::Source;
use std::io::Read;

// A read failed behind so many bytes of a file, which stand at the start of a buffer.
#[derive(Clone, Copy, Debug, PartialEq, Eq)]
pub struct ReadFailed {
    pub size: usize,
}

// How many bytes of a file stand at the start of the buffer: reads until the buffer is full, the file ends or a read fails. `given` is how many
// bytes a file in memory has given: of a descriptor the system keeps it.
pub fn read_source<R: Read + Drop>(
    mut source: Source<R>,
    file: &[u8],
    pieces: &[u32],
    buffer: &mut [u8],
) -> Result<usize, ReadFailed>
    ensures { ReadSource source file.now pieces.now buffer.old buffer.new result }
{
    let mut given = 0;
    let mut size = 0;
    while size < buffer.len() {
        let got = source::read_more(&mut source, file, pieces, &mut given, buffer, size);
        let Some(count) = got else {
            return Err(ReadFailed { size });
        };
        if count == 0 {
            return Ok(size);
        }
        size += count;
    }
    Ok(size)
}

// The bytes of a reader, as many as the buffer has room for; with none, of a file that could not be opened.
pub fn read_bytes<R: Read + Drop>(reader: Option<R>, buffer: &mut [u8]) -> Result<usize, ReadFailed>
    ensures { ReadDescriptor reader buffer.old buffer.new result }
{
    read_source(Source::descriptor(reader), b"", &[1u32], buffer)
}
