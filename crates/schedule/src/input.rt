// The bytes of a schedule file, from any reader.
ghost use Rattle.std.specs.Prelude.{◌≡◌, IfOk, IfSome, take, vec_items};

use std::alloc::Global;
use std::io;
use std::io::Read;

// One byte more than the longest file has: what lies past it does not count.
const MOST: u64 = 19_017;

// Reads what may be a schedule file: the bytes to the reader's end, but no more than that.
pub fn read_bytes<R: Read + Drop>(heap: Global, reader: R) -> io::Result<Vec<u8>>
    ensures { IfOk result (λ bytes. IfSome (R.remaining reader) (λ xs. vec_items bytes ≡ take 19017 xs)) }
{
    let mut bytes = Vec::new(heap);
    reader.take(MOST).read_to_end(&mut bytes)?;
    Ok(bytes)
}
