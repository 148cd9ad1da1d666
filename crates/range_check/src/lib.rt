// Whether the state in a lent buffer is in range, tested where it stands: one loop over the voices' arrays, which the compiler turns into tests of eight voices at a time.
#![tactic(auto)]

ghost use Rattle.std.specs.Prelude.{◌≡◌, true, false, ◌&&◌, ◌+◌, ◌*◌, MatchOption};
ghost use Rattle.fixed.specs.Tests.{all_below};
ghost use Rattle.soundram.specs.Address.{address_of};
ghost use Rattle.chip.specs.State.{size_ok, every_ok, state_ok};
ghost use Rattle.layout.specs.Layout.{parts_of, state_of, voice_in, every, is_tagged, is_row, is_tail, is_state};
ghost use Rattle.range_check.specs.Voices.{wait_ok, fields_ok};

use layout::Buffer;

// Whether there is a sound RAM of size bytes.
pub fn size_ok(size: u32) -> bool
    ensures { result ≡ size_ok size }
{
    (size == 0x10000) | (size == 0x80000)
}

// The buffer of a state, if what is lent has a state's length and tag.
pub fn tagged(state: &[u16]) -> Option<&Buffer>
    ensures { MatchOption result (is_tagged state.now ≡ false) (λ b. (b.now ≡ state.now) × (is_tagged state.now ≡ true)) }
{
    let buffer = state.as_array()?;
    if (buffer[0] == layout::TAG) & (buffer[1] == layout::VERSION) {
        Some(buffer)
    } else {
        None
    }
}

// Whether each voice's fields but its wait are in range, in a sound RAM whose last unit is last.
fn fields(state: &Buffer, last: u16) -> bool
    ensures { result ≡ all_below 24 (fields_ok state.now last) }
{
    let mut ok = true;
    for n in 0..24usize {
        ok = ok
            & ((state[layout::PHASES + n] <= 5)
                & ((state[layout::LEVELS + n] <= 0x7FFF)
                    & ((state[layout::COUNTERS + n] <= 0xFFF)
                        & ((state[layout::INDICES + n] <= 27)
                            & ((state[layout::UNITS + n] <= last)
                                & ((state[layout::LOADED + n] <= 1)
                                    & ((state[layout::FLAGS + n] <= 0xFF)
                                        & (state[layout::ENDED + n] <= 1))))))));
    }
    ok
}

// Whether each voice's wait is in range.
fn waits(state: &Buffer) -> bool
    ensures { result ≡ all_below 24 (λ n. wait_ok (voice_in state.now n).envelope) }
{
    let mut ok = true;
    for n in 0..24usize {
        let phase = state[layout::PHASES + n];
        let wait = layout::wait(state, n);
        ok = ok & ((wait <= 0x400000) & (((phase == 0) | (5 <= phase)) | (1 <= wait)));
    }
    ok
}

// The voices, in a sound RAM whose last unit is last. The waits have a loop of their own, because they are wider: four fit where eight other fields do.
fn voices(state: &Buffer, last: u16) -> bool
    ensures { result ≡ (every is_row (parts_of state.now).rows && every_ok ((last + 1) * 8) (state_of state.now).voices 24) }
{
    fields(state, last) && waits(state)
}

// The number of a unit's first halfword, in a sound RAM whose last unit is last.
fn halfword_of(last: u16, unit: u16) -> u32
    ensures { size_ok ((last + 1) * 8) ≡ true → result * 2 ≡ (address_of ((last + 1) * 8) (record { 0 = unit })).0 }
{
    (unit & last) as u32 * 4
}

// All but the voices.
fn rest(state: &Buffer, size: u32, last: u16) -> bool
    requires { (size ≡ (state_of state.now).choices.size) × (size_ok size ≡ true) × ((last + 1) * 8 ≡ size) }
    ensures { (result && every_ok size (state_of state.now).voices 24) ≡ (is_tail (parts_of state.now).tail && state_ok (state_of state.now)) }
{
    let base = halfword_of(last, state[layout::REGISTERS + 0xD1]);
    let end = size / 2;
    let place = layout::wide(state[layout::PLACE], state[layout::PLACE + 1]);
    let transfer = layout::wide(state[layout::TRANSFER], state[layout::TRANSFER + 1]);
    let timer = layout::wide(state[layout::TIMER], state[layout::TIMER + 1]);
    (state[layout::LATCH] <= 1)
        & ((state[layout::DOUBT] <= 1)
            & ((state[layout::RIGHT] <= 1)
                & ((state[layout::CAPTURE] < 0x200)
                    & ((base <= place)
                        & ((place < end) & ((transfer < end) & (timer <= 0x20000)))))))
}

// Whether every field is in range, in a sound RAM of size bytes whose last unit is last.
fn ranges(state: &Buffer, size: u32, last: u16) -> bool
    requires { (is_tagged state.now ≡ true) × (size ≡ (state_of state.now).choices.size) × (size_ok size ≡ true) × ((last + 1) * 8 ≡ size) }
    ensures { result ≡ is_state state.now }
{
    rest(state, size, last) && voices(state, last)
}

// Whether a state stands in a buffer with its tag, every field within its range.
pub fn check(state: &Buffer) -> bool
    requires { is_tagged state.now ≡ true }
    ensures { result ≡ is_state state.now }
{
    let size = layout::size(state);
    match size {
        0x80000 => ranges(state, size, 0xFFFF),
        0x10000 => ranges(state, size, 0x1FFF),
        _ => false,
    }
}
