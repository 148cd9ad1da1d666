// ADPCM: the samples that a block of 16 bytes holds.
#![tactic(auto)]

ghost use Rattle.std.specs.Prelude.{◌≡◌, ℕ, ◌+◌, ◌≤◌, ◌<◌, length, get_or};
ghost use Rattle.fixed.specs.Range.{In};
ghost use Rattle.adpcm.specs.Adpcm.{acts_as, header_of, k0_of, k1_of, predicted_of, sample_of, block_of};

use std::array;

// How a block's samples are coded.
#[derive(Clone, Copy)]
pub struct Header {
    pub shift: u8,
    pub filter: u8,
}

// The last two samples of a sound.
#[repr(C)]
#[derive(Clone, Copy, Default)]
pub struct History {
    pub old: i16,
    pub older: i16,
}

impl History {
    // The history after one more sample.
    pub fn then(self, new: i16) -> History
        ensures { result ≡ record { old = new; older = self.old } }
    {
        History {
            old: new,
            older: self.old,
        }
    }
}

// The number x, or other if x is above most.
pub fn acts_as(most: u8, other: u8, x: u8) -> u8
    ensures { result ≡ acts_as most other x }
{
    if most < x { other } else { x }
}

// The header in a block's first byte.
pub fn header_of(b: u8) -> Header
    ensures { result ≡ header_of b }
{
    Header {
        shift: acts_as(12, 9, b % 16),
        filter: acts_as(4, 0, b / 16 % 8),
    }
}

// Each filter's factors, of the last sample and of the one before.
const FACTORS: [(i32, i32); 5] = [(0, 0), (60, 0), (115, -52), (98, -55), (122, -60)];

// A filter's factor of the last sample.
pub fn k0(filter: u8) -> i32
    requires { filter < 5 }
    ensures { (result ≡ k0_of filter) × (In 0 122 result) }
{
    FACTORS[filter as usize].0
}

// A filter's factor of the sample before that.
pub fn k1(filter: u8) -> i32
    requires { filter < 5 }
    ensures { (result ≡ k1_of filter) × (In 60 0 result) }
{
    FACTORS[filter as usize].1
}

// A block's header, with the factors of its filter.
#[derive(Clone, Copy)]
pub struct Coding {
    pub header: Header,
    f0: i32,
    f1: i32,
    ghost shift_in: { header.shift ≤ 12 },
    ghost f0_is: { f0 ≡ k0_of header.filter },
    ghost f0_in: { In 0 122 f0 },
    ghost f1_is: { f1 ≡ k1_of header.filter },
    ghost f1_in: { In 60 0 f1 },
}

impl Coding {
    // A filter that no block has, 5 or above, has no factors, as in the definition.
    pub fn of(header: Header) -> Coding
        requires { header.shift ≤ 12 }
        ensures { result.header ≡ header }
    {
        if 5 <= header.filter {
            return Coding {
                header,
                f0: 0,
                f1: 0,
            };
        }
        Coding {
            header,
            f0: k0(header.filter),
            f1: k1(header.filter),
        }
    }

    // The share of the two samples before.
    fn predicted(self, before: History) -> i32
        ensures { (result ≡ predicted_of self.header.filter before.old before.older) × (In 93184 93182 result) }
    {
        (before.old as i32 * self.f0 + before.older as i32 * self.f1 + 32) >> 6
    }

    // The sample of the nibble t.
    pub fn sample(self, t: u8, before: History) -> i16
        requires { t < 16 }
        ensures { result ≡ sample_of t self.header before.old before.older }
    {
        let new = fixed::to_signed(t as u16 * 0x1000) as i32 >> self.header.shift;
        fixed::saturate(new + self.predicted(before))
    }
}

// The block at a place of a buffer.
pub fn block_at(bytes: &[u8], at: usize) -> [u8; 16]
    requires { at + 16 ≤ length bytes.now }
    ensures { (length result ≡ 16) × ((k : ℕ) → k < 16 → (get_or result k 0 ≡ get_or bytes.now (at + k) 0) × (get_or result k 0 < 256)) }
{
    array::from_fn(|i| bytes[at + i])
}

// The samples of a block, of which old and older are the two before it: two of each byte, low nibble first. They are no `History`, since a voice has
// them in a row of samples.
pub fn decode(bytes: [u8; 16], old: i16, older: i16) -> [i16; 28]
    ensures { result ≡ block_of bytes old older }
{
    let coding = Coding::of(header_of(bytes[0]));
    let mut out = [0i16; 28];
    let mut before = History { old, older };
    for (i, byte) in bytes[2..].iter().enumerate() {
        let x = coding.sample(byte % 16, before);
        let between = before.then(x);
        let y = coding.sample(byte / 16 % 16, between);
        out[i * 2] = x;
        out[i * 2 + 1] = y;
        before = between.then(y);
    }
    out
}
