// Reading a sheet.
ghost use Rattle.std.specs.Counts.{IsPrefixLen};
ghost use Rattle.std.specs.Prelude.{IfOk};

use std::io;
use std::io::Read;

// Reads until the buffer is full, the input ends, or a read fails, and answers how many bytes were read, or why a read failed. The standard
// library has nothing that fills a buffer without a heap and says how far.
pub(crate) fn read(from: &mut impl Read, buf: &mut [u8]) -> io::Result<usize>
    ensures { IfOk result (λ n. IsPrefixLen n buf.new) }
{
    let mut count = 0;
    while count < buf.len() {
        match from.read(&mut buf[count..])? {
            0 => break,
            more => count += more,
        }
    }
    Ok(count)
}
