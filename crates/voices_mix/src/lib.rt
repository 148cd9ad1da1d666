// The volumes of all voices, and the sums of what they give.
#![tactic(auto)]

ghost use Rattle.std.specs.Prelude.{◌≡◌, cond, ◌<◌, pos};
ghost use Rattle.fixed.specs.Range.{In};
ghost use Rattle.fixed.specs.Arithmetic.{product_of};
ghost use Rattle.voices.specs.Voices.{Volumes, shares_of, joined_of, SidesIn, SumsIn, mixed_of};

use stereo::Stereo;
use voices::{Captured, Sums};

// A voice's volume, or none.
fn gate(on: bool, volume: i16) -> i16
    ensures { result ≡ cond on volume (pos 0) }
{
    if on { volume } else { 0 }
}

// The volumes of all voices, which hold as long as the registers do: left, right, and left and right of those with reverb, 24 of each. One list, since the
// definition `Volumes` is of one.
pub fn volumes(regs: &[u16; 256]) -> [i16; 96]
    ensures { Volumes regs.now result }
{
    let eon = registers::flags(regs, 0x198);
    let mut v = [0i16; 96];
    for i in 0..24usize {
        let left = fixed::volume(registers::of_voice(regs, i, 0));
        let right = fixed::volume(registers::of_voice(regs, i, 2));
        let wet = registers::has(eon, i);
        let wet_left = gate(wet, left);
        let wet_right = gate(wet, right);
        v[i] = left;
        v[i + 24] = right;
        v[i + 48] = wet_left;
        v[i + 72] = wet_right;
    }
    v
}

// An amplitude's share of a side.
fn side(amplitude: i16, volume: i16) -> i32
    ensures { (result ≡ product_of amplitude volume) × (In 0x8000 0x8000 result) }
{
    (amplitude as i32 * volume as i32) >> 15
}

// Its shares of both sides, by the volumes at k and 24 further on.
fn both_sides(v: &[i16; 96], k: usize, a: i16) -> Stereo<i32>
    requires { k < 72 }
    ensures { (result ≡ shares_of v.now k a) × SidesIn 1 result }
{
    Stereo {
        left: side(a, v[k]),
        right: side(a, v[k + 24]),
    }
}

fn join(s: Stereo<i32>, t: Stereo<i32>) -> Stereo<i32>
    requires { SidesIn 23 s × SidesIn 1 t }
    ensures { result ≡ joined_of s t }
{
    Stereo {
        left: s.left + t.left,
        right: s.right + t.right,
    }
}

// The sums of all voices, by their volumes. Those of voices 1 and 3 are captured.
pub fn mix(regs: &[u16; 256], v: &[i16; 96], amplitudes: [i16; 24]) -> Sums
    requires { Volumes regs.now v.now }
    ensures { (result ≡ mixed_of regs.now amplitudes 24) × SumsIn 24 result }
{
    let mut dry = Stereo { left: 0, right: 0 };
    let mut wet = Stereo { left: 0, right: 0 };
    for (n, a) in amplitudes.iter().enumerate() {
        dry = join(dry, both_sides(v, n, *a));
        wet = join(wet, both_sides(v, n + 48, *a));
    }
    let captured = Captured {
        first: amplitudes[1],
        third: amplitudes[3],
    };
    Sums {
        dry,
        wet,
        below: amplitudes[23],
        captured,
    }
}
