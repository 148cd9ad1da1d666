// The noise generator: a 16-bit shift register with feedback, and the timer that clocks it.
#![tactic(auto)]

ghost use Rattle.std.specs.Prelude.{◌≡◌};
ghost use Rattle.noise.specs.Noise.{parity_of, shifted_of, reload_of, ticked_of, written_of};

#[derive(Clone, Copy)]
pub struct Noise {
    pub level: u16,
    pub timer: u32,
}

// The taps of the shift register: bits 15, 12, 11 and 10.
const TAPS: u16 = 0x9C00;

// The bit that is shifted in: 1 if an even number of taps is set.
fn parity(level: u16) -> u16
    ensures { result ≡ parity_of level }
{
    (((level & TAPS).count_ones() + 1) % 2) as u16
}

// The shift register after one clock.
fn shift(level: u16) -> u16
    ensures { result ≡ shifted_of level }
{
    level % 0x8000 * 2 + parity(level)
}

// What the timer starts from at the frequency of `spucnt`.
fn reload(spucnt: u16) -> u32
    ensures { result ≡ reload_of spucnt }
{
    0x20000u32 >> (spucnt / 0x400 % 16)
}

// One tick.
pub fn tick(n: Noise, spucnt: u16) -> Noise
    ensures { result ≡ ticked_of n spucnt }
{
    let step = 4 + (spucnt / 0x100 % 4) as u32;
    if step <= n.timer {
        return Noise {
            timer: n.timer - step,
            ..n
        };
    }
    let level = shift(n.level);
    let below = step - n.timer;
    let r = reload(spucnt);
    let timer = if below <= r { r - below } else { r + r - below };
    Noise { level, timer }
}

// What a write to SPUCNT does, of its old and its new value.
pub fn write(n: Noise, old: u16, new: u16) -> Noise
    ensures { result ≡ written_of n old new }
{
    if old / 0x400 % 16 == new / 0x400 % 16 {
        return n;
    }
    Noise {
        timer: reload(new),
        ..n
    }
}
