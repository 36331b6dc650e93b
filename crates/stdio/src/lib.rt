// Standard input and standard output, as the programs use them. No contract can say what of the runtime is read or printed: these functions are
// proved safe and ending.
#![tactic(auto)]

pub mod text;

use std::io;
use std::io::Read;

// Reads so many bytes, but no more than the memory holds.
pub fn read_exact(rt: &impl Input, buf: &mut [u8], n: usize) -> io::Result<()> {
    let k = n.min(buf.len());
    rt.reader().read_exact(&mut buf[..k])
}
