// The calls on a state in the buffer that a caller lends: what each is, why they refuse, and the tests that they share. The crates over this one are the calls,
// which host/tenonwhisk.h declares.
#![tactic(auto)]

ghost use Rattle.std.specs.Prelude.{◌≡◌, [], ◌∷◌, ◌<◌, IfOk};
ghost use Rattle.layout.specs.Layout.{state_of, is_state};
ghost use Rattle.spu.specs.Step.{outside, lent_tests};
ghost use Rattle.calls.specs.Kept.{tested_of};
ghost use Rattle.calls.specs.Refusals.{number_of, answered};

use layout::Buffer;

// Why a call is refused, with the number that hosts get.
#[derive(Clone, Copy, Debug, PartialEq, Eq)]
pub enum Refusal {
    // RAM or marks of another length than the state's L asks.
    OtherLength = 1,
    // A buffer that is not a state.
    NotAState = 2,
    UnlistedOffset = 3,
    ReadOnly = 4,
    // A register or a value that is not carried.
    NotCarried = 5,
    OtherMode = 6,
    BadCount = 7,
    BadBlock = 8,
    UndocumentedBits = 11,
    // A run's buffers of lengths that do not fit one another.
    BadBuffers = 25,
}

impl Refusal {
    pub fn number(self) -> u8
        ensures { result ≡ number_of self }
    {
        self as u8
    }
}

// The buffer, if a state stands in it.
pub fn check_state(state: &[u16]) -> Result<&Buffer, Refusal>
    ensures { (answered result ≡ tested_of state.now (outside (is_state state.now) ∷ [])) × IfOk result (λ b. b.now ≡ state.now) }
{
    let Some(buffer) = range_check::tagged(state) else {
        return Err(Refusal::NotAState);
    };
    if !range_check::check(buffer) {
        return Err(Refusal::NotAState);
    }
    Ok(buffer)
}

// The buffer, if a state stands in it and what is lent beside it has the lengths that its L asks: ram and marks.
pub fn check_lent(state: &[u16], ram: usize, marks: usize) -> Result<&Buffer, Refusal>
    ensures { (answered result ≡ tested_of state.now (lent_tests (is_state state.now) (state_of state.now) ram marks [])) × IfOk result (λ b. b.now ≡ state.now) }
{
    let Some(buffer) = range_check::tagged(state) else {
        return Err(Refusal::NotAState);
    };
    let size = layout::size(buffer) as usize;
    if (ram != size) | (marks != size / 16) {
        return Err(Refusal::OtherLength);
    }
    if !range_check::check(buffer) {
        return Err(Refusal::NotAState);
    }
    Ok(buffer)
}
