// The pitch counter: how fast a voice moves through its samples.
#![tactic(auto)]

ghost use Rattle.std.specs.Prelude.{◌≡◌};
ghost use Rattle.pitch.specs.Pitch.{modulated_of, step_of, moved_of};

// The counter after a step, and the samples that it moved.
#[derive(Clone, Copy)]
pub struct Moved {
    pub counter: u16,
    pub moves: u32,
}

// The pitch register times the factor that the voice below gives, in 16 bits.
fn modulate(pitch: u16, amplitude: i16) -> u16
    ensures { result ≡ modulated_of pitch amplitude }
{
    let factor = amplitude as i32 + 0x8000;
    let step = fixed::product(factor, fixed::to_signed(pitch));
    fixed::low16(step)
}

// The step of one tick.
pub fn step(pitch: u16, modulated: bool, amplitude: i16) -> u16
    ensures { result ≡ step_of pitch modulated amplitude }
{
    let step = if modulated {
        modulate(pitch, amplitude)
    } else {
        pitch
    };
    step.min(0x4000)
}

pub fn advance(counter: u16, step: u16) -> Moved
    ensures { result ≡ moved_of counter step }
{
    let sum = counter as u32 + step as u32;
    Moved {
        counter: (sum % 0x1000) as u16,
        moves: sum / 0x1000,
    }
}
