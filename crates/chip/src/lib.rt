// Parts of the state of the chip.
#![tactic(auto)]

use soundram::ByteAddress;
use stereo::Stereo;

// SPUCNT's bits 5-0 as the last tick took them, the interrupt latch, and the doubt.
#[derive(Clone, Copy)]
pub struct Control {
    pub applied: u16,
    pub latch: bool,
    pub doubt: bool,
}

#[derive(Clone, Copy)]
pub struct Reverb {
    pub place: ByteAddress,
    pub right: bool,
    // Each side's output, already multiplied, till its next turn.
    pub held: Stereo<i16>,
}
