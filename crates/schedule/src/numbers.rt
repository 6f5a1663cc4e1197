// Big-endian numbers in a file.
ghost use Rattle.std.specs.Prelude.{◌≡◌, ◌+◌, ◌≤◌, length, take, drop};
ghost use Rattle.layout.specs.Fields.{word, long};

// The N bytes from an offset on.
fn bytes_at<const N: usize>(bytes: &[u8], at: usize) -> [u8; N]
    requires { at + N ≤ length bytes.now }
    ensures { result ≡ take N (drop at bytes.now) }
{
    let mut read = [0; N];
    read.copy_from_slice(&bytes[at..at + N]);
    read
}

// A number of two bytes.
pub(crate) fn word_at(bytes: &[u8], at: usize) -> u16
    requires { at + 2 ≤ length bytes.now }
    ensures { result ≡ word bytes.now at }
{
    u16::from_be_bytes(bytes_at(bytes, at))
}

// A number of four bytes.
pub(crate) fn long_at(bytes: &[u8], at: usize) -> u32
    requires { at + 4 ≤ length bytes.now }
    ensures { result ≡ long bytes.now at }
{
    u32::from_be_bytes(bytes_at(bytes, at))
}
