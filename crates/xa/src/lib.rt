// XA speech: the samples of a sector of CD-ROM XA ADPCM.
#![tactic(auto)]

ghost use Rattle.std.specs.Prelude.{◌≡◌, ◌+◌, ◌*◌, ◌≤◌, ◌<◌, length};
ghost use Rattle.adpcm.specs.Adpcm.{after_of};
ghost use Rattle.xa.specs.Xa.{is_group_copied, are_copied, header_byte, header_of, nibble_of, unit_of, channel_of, placed_of, fresh_of, refused_with, number_in, number_of, answer_of, decoded_of};

use adpcm::{Coding, Header, History};

#[repr(C)]
#[derive(Clone, Copy, Default)]
pub struct Histories {
    pub left: History,
    pub right: History,
    pub mono: History,
}

// Why a sector is refused.
#[derive(Clone, Copy)]
pub enum Refusal {
    HeaderCopies = 12,
    EightBit = 13,
    Lengths = 14,
}

impl Refusal {
    pub fn number(self) -> u8
        ensures { result ≡ refused_with self }
    {
        self as u8
    }
}

// The histories before the first sector.
pub fn fresh() -> Histories
    ensures { result ≡ fresh_of }
{
    Histories::default()
}

// ---- the copies of the headers

fn is_group_copied(group: &[u8; 128]) -> bool
    ensures { result ≡ is_group_copied group.now 0 }
{
    let words = group.as_chunks::<4>().0;
    (words[0] == words[1]) & (words[3] == words[2])
}

fn are_copied(sector: &[u8]) -> bool
    requires { length sector.now ≡ 2304 }
    ensures { result ≡ are_copied sector.now }
{
    sector.as_chunks().0.iter().all(is_group_copied)
}

// ---- units and channels

// The header in a unit's byte.
fn header_of(b: u8) -> Header
    ensures { result ≡ header_of b }
{
    Header {
        shift: adpcm::acts_as(12, 9, b % 16),
        filter: b / 16 % 4,
    }
}

fn unit_header(sector: &[u8], n: usize) -> Header
    requires { (length sector.now ≡ 2304) × (n < 144) }
    ensures { result ≡ header_of (header_byte sector.now n) }
{
    header_of(sector[n / 8 * 128 + (4 + n % 8)])
}

// The nibble of sample j of unit n.
fn nibble(sector: &[u8], n: usize, j: usize) -> u8
    requires { (length sector.now ≡ 2304) × (n < 144) × (j < 28) }
    ensures { result ≡ nibble_of sector.now n j }
{
    let byte = sector[n / 8 * 128 + (16 + 4 * j + n % 8 / 2)];
    if n % 2 == 0 {
        byte % 16
    } else {
        byte / 16 % 16
    }
}

// Decodes unit n to every `step`-th place from `at` on. j is the number of a sample, from which both its nibble and its place follow.
fn unit(
    sector: &[u8],
    n: usize,
    before: History,
    out: &mut [i16],
    at: usize,
    step: usize,
) -> History
    requires { (length sector.now ≡ 2304) × (n < 144) × (step ≤ 2) × (at + 27 * step < length out.old) }
    ensures { (out.new ≡ placed_of out.old at step (unit_of sector.now n before)) × (result ≡ after_of before (unit_of sector.now n before)) }
{
    let coding = Coding::of(unit_header(sector, n));
    let mut h = before;
    for j in 0..28usize {
        let x = coding.sample(nibble(sector, n, j), h);
        out[at + j * step] = x;
        h = h.then(x);
    }
    h
}

// Decodes the units `first`, `first + step`, .., `count` of them, to every `step`-th place from `first` on.
fn channel(
    sector: &[u8],
    first: usize,
    step: usize,
    count: usize,
    history: History,
    out: &mut [i16],
) -> History
    requires { (length sector.now ≡ 2304) × (first < step) × (step ≤ 2) × (count * step ≡ 144) × (length out.old ≡ 4032) }
    ensures { (out.new ≡ placed_of out.old first step (channel_of sector.now first step history count)) × (result ≡ after_of history (channel_of sector.now first step history count)) }
{
    let mut h = history;
    for n in 0..count {
        let skip = n * step;
        h = unit(sector, first + skip, h, out, first + skip * 28, step);
    }
    h
}

// ---- a sector

fn accept(sector: &[u8], eight_bit: bool, out: &[i16]) -> Result<(), Refusal>
    ensures { number_in result ≡ number_of sector.now eight_bit out.now }
{
    if sector.len() != 2304 || out.len() != 4032 {
        return Err(Refusal::Lengths);
    }
    if eight_bit {
        return Err(Refusal::EightBit);
    }
    if !are_copied(sector) {
        return Err(Refusal::HeaderCopies);
    }
    Ok(())
}

// The samples of a sector, and the histories after it. It is refused if the sector or the buffer has another length, for samples of 8 bits, and if a
// header differs from its copy.
pub fn decode(
    sector: &[u8],
    stereo: bool,
    eight_bit: bool,
    histories: Histories,
    out: &mut [i16],
) -> Result<Histories, Refusal>
    ensures { answer_of result histories out.new ≡ decoded_of sector.now stereo eight_bit histories out.old }
{
    accept(sector, eight_bit, out)?;
    if stereo {
        let left = channel(sector, 0, 2, 72, histories.left, out);
        let right = channel(sector, 1, 2, 72, histories.right, out);
        Ok(Histories {
            left,
            right,
            mono: histories.mono,
        })
    } else {
        let mono = channel(sector, 0, 1, 144, histories.mono, out);
        Ok(Histories {
            left: histories.left,
            right: histories.right,
            mono,
        })
    }
}

// ---- for hosts

// What a call answers. The histories are those that were handed in if it is refused.
#[repr(C)]
#[derive(Clone, Copy)]
pub struct Decoded {
    pub number: u8,
    pub histories: Histories,
}

#[unsafe(no_mangle)]
pub extern "C" fn tenonwhisk_xa_fresh() -> Histories
    ensures { result ≡ fresh_of }
{
    fresh()
}

// The number is that of the refusal, or 0.
#[unsafe(no_mangle)]
pub extern "C" fn tenonwhisk_xa_decode(
    sector: &[u8],
    stereo: bool,
    eight_bit: bool,
    histories: Histories,
    out: &mut [i16],
) -> Decoded
    ensures { record { number = result.number; histories = result.histories; out = out.new } ≡ decoded_of sector.now stereo eight_bit histories out.old }
{
    match decode(sector, stereo, eight_bit, histories, out) {
        Ok(after) => Decoded {
            number: 0,
            histories: after,
        },
        Err(refusal) => Decoded {
            number: refusal.number(),
            histories,
        },
    }
}
