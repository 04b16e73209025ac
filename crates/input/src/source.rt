// What is read, and one read of it. The fields are private: only the functions of this file can tell a reader from a file in memory.
ghost use Rattle.std.specs.Prelude.{◌≡◌, ◌≤◌, ◌<◌, ◌^◌, length};
ghost use Rattle.input.specs.Reads.{piece_at};
ghost use Rattle.input.specs.Input.{descriptor, InMemory, SameSource, Stands, Gives, ReadsMore};

use std::io::Read;

// What stands behind a descriptor, of a file that could not be opened none; or a file in memory, whose every read is specified. The same
// loop reads both, and of the second its contract can say which bytes it reads.
#[derive(Drop)]
pub struct Source<R> {
    reader: Option<R>,
    memory: bool,
}

impl<R> Source<R> {
    pub fn descriptor(reader: Option<R>) -> Source<R>
        ensures { result ≡ descriptor reader }
    {
        Source {
            reader,
            memory: false,
        }
    }

    pub fn memory() -> Source<R>
        ensures { InMemory result }
    {
        Source {
            reader: None,
            memory: true,
        }
    }
}

// The most bytes that a read at a place gives; behind the last piece, one.
fn piece(pieces: &[u32], at: usize) -> usize
    ensures { (result ≡ piece_at pieces.now at) × (result < 2 ^ 32) }
{
    pieces.get(at).map_or(1, |piece| *piece as usize)
}

// One read of a file in memory, of which the first `given` bytes were given, and stand in the buffer.
fn give(
    file: &[u8],
    pieces: &[u32],
    given: &mut usize,
    buffer: &mut [u8],
    size: usize,
) -> Option<usize>
    requires size_in_bounds { size ≤ length buffer.old }
    requires stands { Stands file.now given.old buffer.old size }
    ensures { Gives file.now pieces.now buffer.old size given.new buffer.new result }
{
    let from = *given;
    let most = piece(pieces, from);
    if most == 0 {
        return None;
    }
    let n = most.min(buffer.len() - size).min(file.len() - from);
    buffer[size..size + n].copy_from_slice(&file[from..from + n]);
    *given = from + n;
    Some(n)
}

// One read behind the first `size` bytes, which stay as they are. Which bytes of a descriptor it puts there, the contract of `read` does
// not say.
pub(crate) fn read_more<R: Read>(
    source: &mut Source<R>,
    file: &[u8],
    pieces: &[u32],
    given: &mut usize,
    buffer: &mut [u8],
    size: usize,
) -> Option<usize>
    requires size_in_bounds { size ≤ length buffer.old }
    requires stands { InMemory source.old → Stands file.now given.old buffer.old size }
    ensures same_source { SameSource source.old source.new }
    ensures reads_more { ReadsMore source.old file.now pieces.now buffer.old size given.new buffer.new result }
{
    if source.memory {
        return give(file, pieces, given, buffer, size);
    }
    match &mut source.reader {
        Some(reader) => reader.read(&mut buffer[size..]).ok(),
        None => None,
    }
}
