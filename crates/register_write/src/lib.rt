// Register writes that are not refused, on the buffer.
#![tactic(auto)]

ghost use Rattle.std.specs.Prelude.{◌≡◌, true, false, ◌+◌, ◌≤◌, ◌<◌};
ghost use Rattle.soundram.specs.Address.{Sized};
ghost use Rattle.registers.specs.Map.{of_voice};
ghost use Rattle.registers.specs.Offsets.{listed as listed_at};
ghost use Rattle.chip.specs.Registers.{key_on, key_off, set_repeat, set_control, effect_of, write_of};
ghost use Rattle.layout.specs.Layout.{Formed, state_of, Holds};
ghost use Rattle.register_write.specs.Keys.{key_voice, key_if, key_bits, key_pair, stop_voice, stop_voices};

use chip::Control;
use envelope::Phase;
use layout::Buffer;
use soundram::UnitAddress;
use voice::Voice;

// A register of voice n, by its offset from the voice's first.
fn of_voice(state: &Buffer, n: usize, offset: usize) -> u16
    requires { (n < 24) × (offset < 16) }
    ensures { result ≡ of_voice (state_of state.now).regs n offset }
{
    layout::register(state, n * 16 + offset)
}

// Keys voice n on.
fn start(state: &mut Buffer, n: usize)
    requires { (n < 24) × Formed state.old × Sized (state_of state.old).choices.size }
    ensures { Holds state.new (key_voice true (state_of state.old) n) }
{
    let size = layout::size(state);
    let unit = of_voice(state, n, 6);
    let low = of_voice(state, n, 8);
    let high = of_voice(state, n, 0xA);
    let v = voice::key_on(size, UnitAddress(unit), low, high);
    layout::put_voice(state, n, v);
}

// Keys voice n off: its envelope alone changes.
fn release(state: &mut Buffer, n: usize)
    requires { (n < 24) × Formed state.old }
    ensures { Holds state.new (key_voice false (state_of state.old) n) }
{
    let e = layout::envelope(state, n);
    if !voice::goes_off(e.phase) {
        return;
    }
    let low = of_voice(state, n, 8);
    let high = of_voice(state, n, 0xA);
    let after = envelope_tick::enter(Phase::Release, e.level, low, high);
    layout::put_envelope(state, n, after);
}

// Keys voice n on or off, if its bit is set.
fn key(state: &mut Buffer, set: bool, on: bool, n: usize)
    requires { (n < 24) × Formed state.old × Sized (state_of state.old).choices.size }
    ensures { Holds state.new (key_if set on (state_of state.old) n) }
{
    if !set {
        return;
    }
    if on {
        start(state, n);
    } else {
        release(state, n);
    }
}

// Keys those of count voices, from first on, whose bits are set in value. k is a bit of value and the number of a voice, and indexes nothing.
fn on_bits(state: &mut Buffer, on: bool, value: u16, first: usize, count: usize)
    requires { (first + count ≤ 24) × (count ≤ 16) × Formed state.old × Sized (state_of state.old).choices.size }
    ensures { Holds state.new (key_bits on (state_of state.old) value first count) }
{
    for k in 0..count {
        key(state, (value >> k) % 2 == 1, on, first + k);
    }
}

// A pair of key registers.
fn on_keys(state: &mut Buffer, on: bool, second: u32, value: u16)
    requires { Formed state.old × Sized (state_of state.old).choices.size }
    ensures { Holds state.new (key_pair on (state_of state.old) second value) }
{
    if second == 0 {
        on_bits(state, on, value, 0, 16);
    } else {
        on_bits(state, on, value, 16, 8);
    }
}

fn key_on(state: &mut Buffer, second: u32, value: u16)
    requires { Formed state.old × Sized (state_of state.old).choices.size }
    ensures { Holds state.new (key_on (state_of state.old) second value) }
{
    if layout::register(state, 0x1AA) / 0x8000 % 2 == 1 {
        on_keys(state, true, second, value);
    }
}

fn key_off(state: &mut Buffer, second: u32, value: u16)
    requires { Formed state.old × Sized (state_of state.old).choices.size }
    ensures { Holds state.new (key_off (state_of state.old) second value) }
{
    on_keys(state, false, second, value);
}

fn set_repeat(state: &mut Buffer, n: usize, value: u16)
    requires { (n < 24) × Formed state.old }
    ensures { Holds state.new (set_repeat (state_of state.old) n value) }
{
    layout::put_repeat(state, n, value);
}

// Stops voice n: it gets the envelope of a fresh voice.
fn stop(state: &mut Buffer, n: usize)
    requires { (n < 24) × Formed state.old }
    ensures { Holds state.new (stop_voice (state_of state.old) n) }
{
    layout::put_envelope(state, n, Voice::fresh().envelope);
}

// By the voices' numbers, which index many arrays of the buffer.
fn stop_all(state: &mut Buffer)
    requires { Formed state.old }
    ensures { Holds state.new (stop_voices (state_of state.old) 24) }
{
    for n in 0..24usize {
        stop(state, n);
    }
}

// What a write to SPUCNT does; old is the value before it.
fn set_control(state: &mut Buffer, old: u16, value: u16)
    requires { Formed state.old }
    ensures { Holds state.new (set_control (state_of state.old) old value) }
{
    let n = layout::noise(state);
    layout::put_noise(state, noise::write(n, old, value));
    let c = layout::control(state);
    let control = Control {
        latch: c.latch & (value / 0x40 % 2 == 1),
        ..c
    };
    layout::put_control(state, control);
    if value / 0x8000 % 2 != 1 {
        stop_all(state);
    }
}

// What a write does besides keeping the value.
fn effect(state: &mut Buffer, offset: u32, old: u16, value: u16)
    requires { Formed state.old × Sized (state_of state.old).choices.size }
    ensures { Holds state.new (effect_of (state_of state.old) offset old value) }
{
    if offset < 0x180 {
        if offset % 16 == 0xE {
            set_repeat(state, (offset / 16) as usize, value);
        }
        return;
    }
    if (0x188 <= offset) & (offset <= 0x18A) {
        key_on(state, offset - 0x188, value);
        return;
    }
    if (0x18C <= offset) & (offset <= 0x18E) {
        key_off(state, offset - 0x18C, value);
        return;
    }
    match offset {
        0x1A2 => {
            let a = soundram::address_of(layout::size(state), UnitAddress(value));
            layout::put_place(state, a);
        }
        0x1A6 => {
            let a = soundram::address_of(layout::size(state), UnitAddress(value));
            layout::put_transfer(state, a);
        }
        0x1AA => set_control(state, old, value),
        _ => {}
    }
}

// A register write that is not refused.
pub fn write(state: &mut Buffer, offset: u32, value: u16)
    requires { Formed state.old × Sized (state_of state.old).choices.size × (listed_at offset ≡ true) }
    ensures { Holds state.new (write_of (state_of state.old) offset value) }
{
    let i = offset as usize;
    let old = layout::register(state, i);
    layout::put_register(state, i / 2, value);
    effect(state, offset, old, value);
}
