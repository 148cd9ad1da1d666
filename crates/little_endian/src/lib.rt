// Numbers of 16 and 32 bits in bytes, low byte first: read at a place, and written there.
#![tactic(auto)]

ghost use Rattle.std.specs.Prelude.{◌≡◌, ◌+◌, ◌≤◌, ◌<◌, length};
ghost use Rattle.little_endian.specs.Bytes.{half_bytes, word_bytes, half_at, word_at, Put};

pub fn half_at(bytes: &[u8], at: usize) -> u16
    requires { at + 2 ≤ length bytes.now }
    ensures { result ≡ half_at bytes.now at }
{
    u16::from_le_bytes([bytes[at], bytes[at + 1]])
}

pub fn word_at(bytes: &[u8], at: usize) -> u32
    requires { at + 4 ≤ length bytes.now }
    ensures { result ≡ word_at bytes.now at }
{
    u32::from_le_bytes([bytes[at], bytes[at + 1], bytes[at + 2], bytes[at + 3]])
}

pub fn put_half(out: &mut [u8], at: usize, v: u16)
    requires { at + 2 ≤ length out.old }
    ensures { Put (half_bytes v) out.old at out.new }
{
    out[at..at + 2].copy_from_slice(&v.to_le_bytes());
}

pub fn put_word(out: &mut [u8], at: usize, v: u32)
    requires { at + 4 ≤ length out.old }
    ensures { Put (word_bytes v) out.old at out.new }
{
    out[at..at + 4].copy_from_slice(&v.to_le_bytes());
}
