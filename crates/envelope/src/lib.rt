// The envelope generator: the level of one voice over time. Here are its rates, and how far and how often each moves the level.
#![tactic(auto)]

ghost use Rattle.std.specs.Prelude.{◌≡◌, cond, false, ◌-◌, ◌^◌, ◌<◌, pos};
ghost use Rattle.fixed.specs.Range.{In};
ghost use Rattle.envelope.specs.Adsr.{rise, fall, rate_of, cycles_of, step_of, clamped, active};

// The first variant is the one of a fresh voice.
#[derive(Clone, Copy)]
pub enum Phase {
    Idle,
    Attack,
    Decay,
    Sustain,
    Release,
    Off,
}

#[derive(Clone, Copy)]
pub struct Envelope {
    pub phase: Phase,
    pub level: u16,
    pub wait: u32,
}

// How the level moves in a phase.
#[derive(Clone, Copy)]
pub struct Rate {
    pub shift: u32,
    pub value: i32,
    pub exponential: bool,
    pub falling: bool,
}

// Of a phase without steps.
const NO_STEPS: Rate = Rate {
    shift: 0,
    value: 0,
    exponential: false,
    falling: false,
};

// The value of step n, for a rise and for a fall.
fn value(n: u16, falling: bool) -> i32
    requires { n < 4 }
    ensures { result ≡ cond falling (fall n) (rise n) }
{
    if falling {
        n as i32 - 8
    } else {
        (7 - n) as i32
    }
}

// The rate of a phase with steps.
fn with_steps(shift: u16, n: u16, exponential: bool, falling: bool) -> Rate
    requires { n < 4 }
    ensures { result ≡ record { shift = shift; value = cond falling (fall n) (rise n); exponential = exponential; falling = falling } }
{
    Rate {
        shift: shift as u32,
        value: value(n, falling),
        exponential,
        falling,
    }
}

impl Phase {
    // Whether the phase has steps.
    pub fn is_active(self) -> bool
        ensures { result ≡ active self }
    {
        matches!(
            self,
            Phase::Attack | Phase::Decay | Phase::Sustain | Phase::Release
        )
    }

    // Its rate, out of the two ADSR halfwords. They come as two numbers, as the definitions have them, and callers read them from two places.
    pub fn rate(self, low: u16, high: u16) -> Rate
        ensures { result ≡ rate_of self low high }
    {
        match self {
            Phase::Idle | Phase::Off => NO_STEPS,
            Phase::Attack => with_steps(
                low / 0x400 % 32,
                low / 0x100 % 4,
                low / 0x8000 % 2 == 1,
                false,
            ),
            Phase::Decay => with_steps(low / 0x10 % 16, 0, true, true),
            Phase::Sustain => with_steps(
                high / 0x100 % 32,
                high / 0x40 % 4,
                high / 0x8000 % 2 == 1,
                high / 0x4000 % 2 == 1,
            ),
            Phase::Release => with_steps(high % 32, 0, high / 0x20 % 2 == 1, true),
        }
    }
}

// 2 to the power of a - b, and 1 where b is above a.
fn power(a: u32, b: u32) -> u32
    requires { a < 32 }
    ensures { result ≡ 2 ^ (a - b) }
{
    1 << a.saturating_sub(b)
}

impl Rate {
    // The ticks from one step to the next.
    pub fn cycles(self, level: u16) -> u32
        requires { self.shift < 32 }
        ensures { result ≡ cycles_of self level }
    {
        let n = power(self.shift, 11);
        if self.exponential & (!self.falling & (0x6000 < level)) {
            n * 4
        } else {
            n
        }
    }

    // How far a step moves the level. The shift rounds down, as the paper asks; a division would not.
    pub fn step(self, level: u16) -> i32
        requires { In 8 7 self.value }
        ensures { result ≡ step_of self level }
    {
        let full = self.value * (power(11, self.shift) as i32);
        if self.exponential & self.falling {
            (full * (level as i32)) >> 15
        } else {
            full
        }
    }
}

// A level, held to 0..7FFFh.
pub fn clamp(x: i32) -> u16
    ensures { result ≡ clamped x }
{
    x.clamp(0, 0x7FFF) as u16
}
