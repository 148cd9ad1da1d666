// Sound RAM: its addresses, and what its halfwords, its marks and every access to them are.
#![tactic(auto)]

ghost use Rattle.std.specs.Prelude.{◌≡◌, ◌||◌, ◌&&◌, not, ◌≤◌, ◌<◌};
ghost use Rattle.soundram.specs.Address.{address_of, unit_of, forward_of};

// An address in units of 8 bytes, as registers hold it.
#[derive(Clone, Copy)]
pub struct UnitAddress(pub u16);

// An address in bytes.
#[derive(Clone, Copy)]
pub struct ByteAddress(pub u32);

// Who reads.
#[derive(Clone, Copy)]
pub enum Reader {
    Voice(u8),
    ReverbLeft,
    ReverbRight,
    Transfer,
}

// What an access looks at and sets: the interrupt, armed or not, at a halfword; its latch; the doubt.
#[derive(Clone, Copy)]
pub struct Watch {
    pub armed: bool,
    pub halfword: u32,
    pub latch: bool,
    pub doubt: bool,
}

impl Watch {
    // What accesses leave of it; hit: one was to the halfword that it looks at; sure: none was a counted read of an unmarked halfword.
    pub fn noticed(self, hit: bool, sure: bool) -> Watch
        ensures { result ≡ record { armed = self.armed; halfword = self.halfword; latch = self.latch || (self.armed && hit); doubt = self.doubt || not sure } }
    {
        Watch {
            latch: self.latch | (self.armed & hit),
            doubt: self.doubt | !sure,
            ..self
        }
    }
}

// What accesses gave, and what is watched after them.
#[derive(Clone, Copy)]
pub struct Seen<T> {
    pub value: T,
    pub watch: Watch,
}

// The byte address of a unit, in a sound RAM of size bytes. Most need no division.
pub fn address_of(size: u32, u: UnitAddress) -> ByteAddress
    requires { 0 < size }
    ensures { result ≡ address_of size u }
{
    let a = u.0 as u32 * 8;
    if a < size {
        ByteAddress(a)
    } else {
        ByteAddress(a % size)
    }
}

// The unit that an address lies in.
pub fn unit_of(a: ByteAddress) -> UnitAddress
    requires { a.0 < 0x80000 }
    ensures { result ≡ unit_of a }
{
    UnitAddress((a.0 / 8) as u16)
}

// k bytes further on.
pub fn forward(size: u32, a: ByteAddress, k: u32) -> ByteAddress
    requires { (a.0 < size) × (k ≤ size) × (size ≤ 0x80000) }
    ensures { result ≡ forward_of size a k }
{
    let s = a.0 + k;
    if s < size {
        ByteAddress(s)
    } else {
        ByteAddress(s - size)
    }
}
