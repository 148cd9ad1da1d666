// One tick of an envelope, and its phases.
#![tactic(auto)]

ghost use Rattle.std.specs.Prelude.{◌≡◌, ◌&&◌, ltb};
ghost use Rattle.envelope.specs.Adsr.{sustain_level, active, entered_of, phase_after, moved_of, ticked_of};

use envelope::{Envelope, Phase};

// The level at which Decay ends.
fn sustain_level(low: u16) -> u16
    ensures { result ≡ sustain_level low }
{
    (low % 16 + 1) * 0x800
}

// The phase after a step that led to the level.
fn phase_after(phase: Phase, level: u16, low: u16) -> Phase
    ensures { result ≡ phase_after phase level low }
{
    match phase {
        Phase::Idle | Phase::Sustain | Phase::Off => phase,
        Phase::Attack if level == 0x7FFF => Phase::Decay,
        Phase::Decay if level <= sustain_level(low) => Phase::Sustain,
        Phase::Release if level == 0 => Phase::Off,
        _ => phase,
    }
}

// The envelope as a phase begins, and after each of its steps.
pub fn enter(phase: Phase, level: u16, low: u16, high: u16) -> Envelope
    ensures { result ≡ entered_of phase level low high }
{
    let wait = if phase.is_active() {
        phase.rate(low, high).cycles(level)
    } else {
        0
    };
    Envelope { phase, level, wait }
}

// One step.
fn moved(phase: Phase, level: u16, low: u16, high: u16) -> Envelope
    ensures { result ≡ moved_of phase level low high }
{
    let rate = phase.rate(low, high);
    let next = envelope::clamp(level as i32 + rate.step(level));
    enter(phase_after(phase, next, low), next, low, high)
}

// Whether the next tick of an envelope only waits.
pub fn waits(phase: Phase, wait: u32) -> bool
    ensures { result ≡ (active phase && ltb 1 wait) }
{
    phase.is_active() & (1 < wait)
}

// One tick: most only wait, and look at no rate.
pub fn tick(e: Envelope, low: u16, high: u16) -> Envelope
    ensures { result ≡ ticked_of e low high }
{
    if !e.phase.is_active() {
        return e;
    }
    if 1 < e.wait {
        Envelope {
            wait: e.wait - 1,
            ..e
        }
    } else {
        moved(e.phase, e.level, low, high)
    }
}
