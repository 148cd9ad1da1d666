// A check of encoders: the blocks that an ADPCM encoder made, against the samples that it made them of.
#![tactic(auto)]

ghost use Rattle.std.specs.Prelude.{◌≡◌, cond, not, ◌||◌, ◌+◌, ◌≤◌, ◌<◌, ltb, length, get_or, pos, is_some};
ghost use Rattle.fixed.specs.Bits.{bit, field};
ghost use Rattle.fixed.specs.Tests.{first_below};
ghost use Rattle.adpcm.specs.Adpcm.{block_of};
ghost use Rattle.encoder_check.specs.Check.{blocks_of, groups_of, bytes_of, decoded_at, is_within, is_near, found, pairs_of, broken_at, fault_of, verdict_of, answer_of};

use adpcm::History;

// The first block at fault, and what it breaks. The sample is the first that is too far from its original.
#[derive(Clone, Copy)]
pub struct Fault {
    pub block: usize,
    pub unpaired: bool,
    pub sample: Option<usize>,
    pub end_flag: bool,
    pub filter: bool,
}

// Why a check is refused: the lengths do not make whole blocks.
#[derive(Clone, Copy)]
pub struct NotWhole;

// ---- a block

fn is_within(largest: u16, x: i16, y: i16) -> bool
    ensures { result ≡ is_within largest x y }
{
    x.abs_diff(y) <= largest
}

// The first of a block's samples that is too far from its original. The originals begin at `at`. A loop, since the closure of `position` is not told
// that the numbers in a slice fit their type.
fn first_far(originals: &[i16], at: usize, samples: [i16; 28], largest: u16) -> Option<usize>
    requires { at + 28 ≤ length originals.now }
    ensures { result ≡ found 28 (first_below 28 (is_near largest samples originals.now at)) }
{
    for (j, sample) in samples.iter().enumerate() {
        if !is_within(largest, *sample, originals[at + j]) {
            return Some(j);
        }
    }
    None
}

// Whether the flags of a block, the last one or not, have the end flag as they should.
fn is_flag_right(flags: u8, last: bool) -> bool
    ensures { result ≡ cond last (bit 0 flags) (not (bit 0 flags)) }
{
    (flags % 2 == 1) == last
}

fn is_filter_known(header: u8) -> bool
    ensures { result ≡ ltb (field 4 3 header) 5 }
{
    header / 16 % 8 < 5
}

// What block n breaks, whose samples these are.
fn judge(originals: &[i16], encoded: &[u8], largest: u16, n: usize, samples: [i16; 28]) -> Fault
    requires { (n < groups_of originals.now) × (n < blocks_of encoded.now) × (samples ≡ decoded_at encoded.now n) }
    ensures { result ≡ broken_at originals.now encoded.now largest n }
{
    let at = n * 16;
    let last = n + 1 == encoded.len() / 16;
    let end_flag = !is_flag_right(encoded[at + 1], last);
    let filter = !is_filter_known(encoded[at]);
    let sample = first_far(originals, n * 28, samples, largest);
    Fault {
        block: n,
        unpaired: false,
        sample,
        end_flag,
        filter,
    }
}

fn is_broken(f: Fault) -> bool
    ensures { result ≡ (is_some f.sample || (f.end_flag || f.filter)) }
{
    f.sample.is_some() | (f.end_flag | f.filter)
}

// ---- a sound

fn pairs_of(originals: &[i16], encoded: &[u8]) -> usize
    ensures { result ≡ pairs_of originals.now encoded.now }
{
    (encoded.len() / 16).min(originals.len() / 28)
}

// The samples of block n after the history h.
fn samples_at(encoded: &[u8], n: usize, h: History) -> [i16; 28]
    requires { n < blocks_of encoded.now }
    ensures { result ≡ block_of (bytes_of encoded.now n) h.old h.older }
{
    let bytes = adpcm::block_at(encoded, n * 16);
    adpcm::decode(bytes, h.old, h.older)
}

fn last_two(samples: [i16; 28]) -> History
    ensures { result ≡ record { old = get_or samples 27 (pos 0); older = get_or samples 26 (pos 0) } }
{
    History {
        old: samples[27],
        older: samples[26],
    }
}

// Stops at the first fault.
fn first_fault(originals: &[i16], encoded: &[u8], largest: u16) -> Fault
    ensures { result ≡ fault_of originals.now encoded.now largest }
{
    let pairs = pairs_of(originals, encoded);
    let mut h = History::default();
    for n in 0..pairs {
        let samples = samples_at(encoded, n, h);
        let fault = judge(originals, encoded, largest, n, samples);
        if is_broken(fault) {
            return fault;
        }
        h = last_two(samples);
    }
    Fault {
        block: pairs,
        unpaired: true,
        sample: None,
        end_flag: false,
        filter: false,
    }
}

// The first fault, if a sample does not lie within `largest` of its original or a block breaks another rule.
pub fn check(originals: &[i16], encoded: &[u8], largest: u16) -> Result<Option<Fault>, NotWhole>
    ensures { result ≡ verdict_of originals.now encoded.now largest }
{
    let sized = (originals.len() % 28 == 0) & (encoded.len() % 16 == 0);
    if !sized {
        return Err(NotWhole);
    }
    let fault = first_fault(originals, encoded, largest);
    let blocks = encoded.len() / 16;
    let groups = originals.len() / 28;
    if (blocks == groups) & (fault.unpaired & (blocks != 0)) {
        Ok(None)
    } else {
        Ok(Some(fault))
    }
}

// ---- for hosts

// A verdict as numbers and bools: zeros where it says nothing. The sample is 28 if a fault has none.
#[repr(C)]
#[derive(Clone, Copy, Default)]
pub struct Answer {
    pub number: u8,
    pub yes: bool,
    pub unpaired: bool,
    pub end_flag: bool,
    pub filter: bool,
    pub block: usize,
    pub sample: usize,
}

#[unsafe(no_mangle)]
pub extern "C" fn tenonwhisk_encoder_check(
    originals: &[i16],
    encoded: &[u8],
    largest: u16,
) -> Answer
    ensures { result ≡ answer_of (verdict_of originals.now encoded.now largest) }
{
    match check(originals, encoded, largest) {
        Ok(None) => Answer {
            yes: true,
            ..Answer::default()
        },
        Ok(Some(fault)) => Answer {
            unpaired: fault.unpaired,
            end_flag: fault.end_flag,
            filter: fault.filter,
            block: fault.block,
            sample: fault.sample.unwrap_or(28),
            ..Answer::default()
        },
        Err(NotWhole) => Answer {
            number: 23,
            ..Answer::default()
        },
    }
}
