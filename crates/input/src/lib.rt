// What the programs read: the text of a file, and the readings of an input.
#![tactic(auto)]

ghost use Rattle.std.specs.Prelude.{length};
ghost use Rattle.input.specs.Chunks.{GoesOn};
ghost use Rattle.input.specs.Received.{Receives};
ghost use Rattle.input.specs.Within.{Within};

use readings::Reader;
use std::fs::File;
use std::io;
use std::io::{Error, ErrorKind, Read};
use std::rt::Files;

// Bytes that one read may bring.
const CHUNK: usize = 4096;

// As much of an input as the buffer holds, and how many bytes. A read that fails, also a later one, leaves no text.
pub fn text_of<R: Read>(source: &mut R, text: &mut [u8]) -> io::Result<usize>
    ensures { Within result (length text.new) }
{
    // counted by hand: `read_to_end` fills a `Vec`, `read_exact` fails where the buffer is not filled, and `io::copy` says of no count that it fits
    let mut end = 0;
    while end < text.len() {
        match source.read(&mut text[end..])? {
            0 => break,
            more => end += more,
        }
    }
    Ok(end)
}

// The same of the file of that name.
pub fn text_file<R: Files>(rt: &R, path: &[u8], text: &mut [u8]) -> io::Result<usize>
    ensures { Within result (length text.new) }
{
    let Ok(name) = str::from_utf8(path) else {
        return Err(Error::from(ErrorKind::InvalidInput));
    };
    text_of(&mut File::open(rt, name)?, text)
}

// Where one read leads, and whether another may change anything.
#[derive(Clone, Copy)]
struct Chunk {
    reader: Reader,
    more: bool,
}

// One read a turn: what a slow pipe has brought is taken at once.
fn take_chunk<R: Read>(source: &mut R, r: Reader, numbers: &mut [i32]) -> io::Result<Chunk>
    ensures { GoesOn result r numbers.old numbers.new }
{
    let mut bytes = [0u8; CHUNK];
    let n = source.read(&mut bytes)?;
    let reader = readings::more(r, &bytes[..n], numbers);
    let more = 0 < n && !readings::is_over(reader, numbers);
    Ok(Chunk { reader, more })
}

// The readings of an input, read no further than they go. A proved loop has to end, so its turns are counted to a number that no input uses up.
pub fn readings_of<R: Read>(source: &mut R, numbers: &mut [i32]) -> io::Result<usize>
    ensures { Receives result numbers.old numbers.new }
{
    let mut reader = readings::start();
    for _ in 0..u64::MAX {
        let chunk = take_chunk(source, reader, numbers)?;
        reader = chunk.reader;
        if !chunk.more {
            break;
        }
    }
    Ok(readings::finish(reader, numbers))
}
