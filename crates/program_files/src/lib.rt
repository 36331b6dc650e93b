// Files: one read to its end, and one put in the place of another.
#![tactic(auto)]

ghost use Rattle.std.specs.Prelude.{◌≤◌, length};
ghost use Rattle.program_files.specs.Files.{Adds, Brings, GivesSome, IsRead};

use calls::How;
use std::fs::{Files, OpenFile};
use std::io;
use std::io::{Error, ErrorKind, Read, Seek, Write};

// No file is as long.
const LONGEST: usize = 0x8000_0000_0000_0000;

// So many bytes are read at a time of what does not fit the start.
const PIECE: usize = 65536;

// A read of what does not fit the start any more: it is only counted.
fn read_past<F: Read>(file: &mut F) -> io::Result<usize>
    ensures brings { Brings 65536 result }
    ensures gives { GivesSome (F.remaining file.old) (F.remaining file.new) result }
{
    calls::read(file, &mut [0u8; PIECE])
}

// One read: into what is left of the start, and past it. No bytes are brought at the end of the file.
fn read_some<F: Read>(file: &mut F, start: &mut [u8], at: usize) -> io::Result<usize>
    requires { length start.old ≤ 65536 }
    ensures brings { Brings 65536 result }
    ensures adds { Adds (F.remaining file.old) (F.remaining file.new) at start.old start.new result }
{
    if start.len() <= at {
        return read_past(file);
    }
    calls::read(file, &mut start[at..])
}

// How long the file is, whatever of it the start holds. The loop counts no index: it adds up what the reads bring, and no read says when the last comes.
fn read_to_end<F: Read>(file: &mut F, start: &mut [u8]) -> io::Result<usize>
    requires { length start.old ≤ 65536 }
    ensures { IsRead (F.remaining file.old) start.new result }
{
    let mut length = 0;
    while length < LONGEST {
        let n = read_some(file, start, length)?;
        if n == 0 {
            return Ok(length);
        }
        length += n;
    }
    Err(Error::from(ErrorKind::FileTooLarge))
}

// Reads the file to its end, and keeps as much of it as the start holds. How long it is.
pub fn read_file<R: Files>(rt: &R, path: &[u8], start: &mut [u8]) -> io::Result<usize>
    requires { length start.old ≤ 65536 }
{
    let mut file = calls::open(rt, path, How::Read)?;
    read_to_end(&mut file, start)
}

// There is no such file, or one that lets itself be written. It is opened to append, so none of its bytes change; fsync is refused by what is
// no file, as a device.
fn check_writable<R: Files>(rt: &R, path: &[u8]) -> io::Result<()> {
    match calls::open(rt, path, How::Append) {
        Ok(file) => file.sync_all(),
        Err(e) if e.kind() == ErrorKind::NotFound => Ok(()),
        Err(e) => Err(e),
    }
}

// Writes the bytes into a file that was opened for them. They are on the disk before it is closed, so a close has nothing more to say.
fn fill<F: Write + OpenFile + Drop>(mut file: F, bytes: &[u8]) -> io::Result<()> {
    calls::write_all(&mut file, bytes)?;
    file.sync_all()
}

// Makes a new file under the first of ten names that is not taken; the name's last byte is counted up. A file that has such a name is not
// ours, and stays.
fn make_part<R: Files>(rt: &R, name: &mut [u8]) -> io::Result<R::File> {
    for digit in b'0'..=b'9' {
        let Some(last) = name.last_mut() else {
            break;
        };
        *last = digit;
        match calls::open(rt, name, How::New) {
            Err(e) if e.kind() == ErrorKind::AlreadyExists => {}
            made => return made,
        }
    }
    Err(Error::from(ErrorKind::AlreadyExists))
}

// Writes the bytes into a new file, and leaves none where that fails.
fn write_new<R: Files>(rt: &R, path: &[u8], bytes: &[u8]) -> io::Result<()> {
    let written = fill(calls::open(rt, path, How::New)?, bytes);
    if written.is_err() {
        let _ = calls::remove(rt, path);
    }
    written
}

fn put_start<F: Write + Seek>(file: &mut F, bytes: &[u8]) -> io::Result<()> {
    let _ = file.rewind();
    calls::write_all(file, bytes)
}

// Makes these bytes all that an open file has. What it had beyond them is cut off last, when they are on the disk.
fn overwrite<F: Write + Seek + OpenFile>(file: &mut F, bytes: &[u8]) -> io::Result<()> {
    put_start(file, bytes)?;
    file.sync_all()?;
    file.set_len(bytes.len() as u64)
}

// Writes the bytes over those of an open file, of which the first are kept in `old`. Where that fails they are put back.
fn write_over<F: Read + Write + Seek + OpenFile>(
    file: &mut F,
    bytes: &[u8],
    old: &mut [u8],
) -> io::Result<()>
    requires { length old.old ≤ 65536 }
{
    let length = read_to_end(file, old)?;
    let written = overwrite(file, bytes);
    if written.is_err() {
        let _ = if length < old.len() {
            overwrite(file, &old[..length])
        } else {
            put_start(file, old)
        };
    }
    written
}

// A file that cannot be read is emptied first, since its old bytes cannot be kept. Inlined, its buffer would stand in the stack of every run.
#[inline(never)]
fn write_in_place<R: Files>(rt: &R, path: &[u8], bytes: &[u8]) -> io::Result<()> {
    match calls::open(rt, path, How::Update) {
        Ok(mut file) => write_over(&mut file, bytes, &mut [0u8; PIECE]),
        Err(e) if e.kind() == ErrorKind::NotFound => write_new(rt, path, bytes),
        Err(_) => fill(calls::open(rt, path, How::Emptied)?, bytes),
    }
}

// Fills a new file, and gives it the path's name.
fn put_beside<R: Files>(
    rt: &R,
    path: &[u8],
    part: &[u8],
    file: R::File,
    bytes: &[u8],
) -> io::Result<()> {
    fill(file, bytes)?;
    calls::rename(rt, part, path)
}

// Makes these bytes the file's. They are written beside it, under a name that ends with a digit, and then take its name: the old file stays
// whole until the new one is. Where that fails, as where no file can be made there, they are written in place.
pub fn replace<R: Files>(rt: &R, path: &[u8], part: &mut [u8], bytes: &[u8]) -> io::Result<()> {
    check_writable(rt, path)?;
    if let Ok(file) = make_part(rt, part) {
        if put_beside(rt, path, part, file, bytes).is_ok() {
            return Ok(());
        }
        let _ = calls::remove(rt, part);
    }
    write_in_place(rt, path, bytes)
}
