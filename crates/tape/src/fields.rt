ghost use Rattle.std.specs.Prelude.{◌≡◌, ◌+◌, ◌%◌, ◌^◌, ◌≤◌, length};
ghost use Rattle.tape.specs.Fields.{Bytes, Pair, bytes_of, number, put};

// The number in these bytes, the highest first; of more than eight bytes the last eight count.
pub fn read_field(bytes: &[u8]) -> u64
    ensures value { result ≡ number bytes.now % 2 ^ 64 }
    ensures octets { Bytes bytes.now }
{
    let mut value: u64 = 0;
    for &byte in bytes {
        value = value.wrapping_mul(256).wrapping_add(u64::from(byte));
    }
    value
}

// Fills these bytes with the number, the highest first.
pub fn write_field(value: u64, into: &mut [u8])
    ensures { into.new ≡ bytes_of (length into.old) value }
{
    let mut rest = value;
    // By number: of the items of a reversed `iter_mut` a proof knows nothing.
    for i in (0..into.len()).rev() {
        into[i] = (rest % 256) as u8;
        rest /= 256;
    }
}

// The number in the two bytes at `at`.
pub(crate) fn read_pair(bytes: &[u8], at: usize) -> u16
    requires { at + 2 ≤ length bytes.now }
    ensures { Pair bytes.now at result }
{
    read_field(&bytes[at..at + 2]) as u16
}

// Writes the number into the two bytes at `at`.
pub(crate) fn write_pair(value: u16, into: &mut [u8], at: usize)
    requires { at + 2 ≤ length into.old }
    ensures { into.new ≡ put into.old at (bytes_of 2 value) }
{
    write_field(u64::from(value), &mut into[at..at + 2]);
}

// Writes these bytes at `at`.
pub(crate) fn write_bytes(bytes: &[u8], into: &mut [u8], at: usize)
    requires { at + length bytes.now ≤ length into.old }
    ensures { into.new ≡ put into.old at bytes.now }
{
    into[at..at + bytes.len()].copy_from_slice(bytes);
}
