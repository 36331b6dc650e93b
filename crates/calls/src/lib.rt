// Calls of the system over std, each made again where a signal interrupts it: `open` by std itself, `read` and `write` here. A file is closed
// where it is dropped.
#![tactic(auto)]

ghost use Rattle.std.specs.Prelude.{OnOk};
ghost use Rattle.std.specs.Io.{ReadsAtMost, WritesAtMost};
ghost use Rattle.std.specs.Io.KnownBytes.{Appends, ReadConsumes, WriteAppends};

use std::fs::{Files, OpenOptions};
use std::io::{Error, ErrorKind, Read, Write};
use std::{fs, io, str};

// More turns than any run takes: no loop here goes on for ever.
const TURNS: usize = 0x8000_0000_0000_0000;

// How a file is opened: to be read, to be appended to, to be read and written, as one that is new, or emptied to be written.
#[derive(Clone, Copy)]
pub enum How {
    Read,
    Append,
    Update,
    New,
    Emptied,
}

fn options(how: How) -> OpenOptions {
    let mut options = OpenOptions::new();
    match how {
        How::Read => options.read(true),
        How::Append => options.append(true),
        How::Update => options.read(true).write(true),
        How::New => options.write(true).create_new(true),
        How::Emptied => options.write(true).create(true).truncate(true),
    };
    options
}

// std opens by names that are text.
fn text(path: &[u8]) -> io::Result<&str> {
    str::from_utf8(path).map_err(|_| Error::new(ErrorKind::InvalidInput, "the name is not UTF-8"))
}

pub fn open<R: Files>(rt: &R, path: &[u8], how: How) -> io::Result<R::File> {
    options(how).open(rt, text(path)?)
}

// `read` and `write` stay apart: what a closure that is handed on leaves in the file and the buffer is not known after it, and the clauses of
// both say just that.

// How many bytes were read, 0 at the end of the file.
pub fn read<R: Read>(file: &mut R, buffer: &mut [u8]) -> io::Result<usize>
    ensures bound { ReadsAtMost result buffer.new }
    ensures bytes { ReadConsumes (R.remaining file.old) (R.remaining file.new) result buffer.new }
{
    for _ in 0..TURNS {
        match file.read(buffer) {
            Err(e) if e.kind() == ErrorKind::Interrupted => {}
            got => return got,
        }
    }
    Err(Error::from(ErrorKind::Interrupted))
}

// How many bytes were written.
fn write<W: Write>(file: &mut W, bytes: &[u8]) -> io::Result<usize>
    ensures bound { WritesAtMost result bytes.now }
    ensures appended { WriteAppends (W.contents file.old) (W.contents file.new) result bytes.now }
{
    for _ in 0..TURNS {
        match file.write(bytes) {
            Err(e) if e.kind() == ErrorKind::Interrupted => {}
            put => return put,
        }
    }
    Err(Error::from(ErrorKind::Interrupted))
}

// Writes all of the bytes. The turns are ours and not those of std's `write_all`: a write that takes nothing ends them, which is proved here.
pub fn write_all<W: Write>(file: &mut W, bytes: &[u8]) -> io::Result<()>
    ensures { OnOk result (Appends (W.contents file.old) (W.contents file.new) bytes.now) }
{
    let mut rest = bytes;
    while !rest.is_empty() {
        let put = write(file, rest)?;
        if put == 0 {
            return Err(Error::from(ErrorKind::WriteZero));
        }
        rest = &rest[put..];
    }
    Ok(())
}

// Gives the file the other name, and what had it before is gone.
pub fn rename<R: Files>(rt: &R, from: &[u8], to: &[u8]) -> io::Result<()> {
    fs::rename(rt, text(from)?, text(to)?)
}

pub fn remove<R: Files>(rt: &R, path: &[u8]) -> io::Result<()> {
    fs::remove_file(rt, text(path)?)
}
