ghost use Rattle.std.specs.Prelude.{◌≤◌, length, IfOk};

use std::io;
use std::io::Read;

/// More than any netlist file has: the longest is 1,734 bytes.
pub const LONGEST: usize = 2048;

/// Reads until the input ends or the buffer is full, and returns how many bytes came. One read may give fewer than asked.
pub fn fill<R: Read>(input: &mut R, buffer: &mut [u8]) -> io::Result<usize>
    ensures { IfOk result (λ n. n ≤ length buffer.old) }
{
    let mut filled = 0;
    while filled < buffer.len() {
        let count = input.read(&mut buffer[filled..])?;
        if count == 0 {
            break;
        }
        filled += count;
    }
    Ok(filled)
}

/// Reads a file until the input ends, or its first 2,048 bytes, into the buffer, and lends what came.
pub fn read_file<'a, R: Read>(input: &mut R, buffer: &'a mut [u8; LONGEST]) -> io::Result<&'a [u8]>
    ensures { IfOk result (λ file. length file.now ≤ 2048) }
{
    let length = fill(input, buffer)?;
    Ok(&buffer[..length])
}
