// Calls on a lent state: make, reset, status, register writes and reads, and the block view. What C gets has a number, 0 unless the call is refused.
#![tactic(auto)]

ghost use Rattle.std.specs.Prelude.{◌≡◌, false, cond, List, ℕ, length, IfOk};
ghost use Rattle.chip.specs.State.{fresh_of, size_ok};
ghost use Rattle.layout.specs.Layout.{state_length, Holds};
ghost use Rattle.spu.specs.Step.{written, value as valued, made, viewed, looked, write as writing, read as reading, reset as resetting, view, status as looking};
ghost use Rattle.calls.specs.Kept.{number_in, Keeps, KeepsStill, make_of, view_of, view_length};
ghost use Rattle.calls.specs.Refusals.{answered};

use calls::Refusal;
use layout::Buffer;

#[repr(C)]
#[derive(Clone, Copy)]
pub struct Reading {
    pub number: u8,
    pub value: u16,
}

#[repr(C)]
#[derive(Clone, Copy)]
pub struct Status {
    pub number: u8,
    pub doubt: bool,
    pub size: u32,
    pub tick: u32,
}

#[unsafe(no_mangle)]
pub extern "C" fn tenonwhisk_make(size: u32, state: &mut [u16]) -> u8
    ensures { (record { number = result; state = state.new } ≡ make_of size state.old) × (length state.old ≡ state_length → Holds state.new (fresh_of (cond (size_ok size) size 0x10000))) }
{
    let good = range_check::size_ok(size);
    let Some(buffer) = state.as_mut_array() else {
        if good {
            return 2;
        }
        return 1;
    };
    if good {
        layout::fresh(buffer, size);
        return 0;
    }
    layout::fresh(buffer, 0x10000);
    1
}

#[unsafe(no_mangle)]
pub extern "C" fn tenonwhisk_reset(state: &mut [u16]) -> u8
    ensures { KeepsStill resetting state.old (made result) state.new }
{
    let Some(buffer) = state.as_mut_array() else {
        return Refusal::NotAState.number();
    };
    if let Err(refusal) = calls::check_state(buffer) {
        return refusal.number();
    }
    let size = layout::size(buffer);
    layout::fresh(buffer, size);
    0
}

#[unsafe(no_mangle)]
pub extern "C" fn tenonwhisk_status(state: &[u16]) -> Status
    ensures { KeepsStill looking state.now (looked result.number result.doubt result.size result.tick) state.now }
{
    match calls::check_state(state) {
        Ok(buffer) => Status {
            number: 0,
            doubt: layout::control(buffer).doubt,
            size: layout::size(buffer),
            tick: layout::tick(buffer),
        },
        Err(refusal) => Status {
            number: refusal.number(),
            doubt: false,
            size: 0,
            tick: 0,
        },
    }
}

fn check_write(state: &[u16], offset: u32, value: u16) -> Result<(), Refusal>
    ensures { answered result ≡ number_in (writing offset value) state.now 0 0 }
{
    calls::check_state(state)?;
    if !registers::listed(offset) {
        return Err(Refusal::UnlistedOffset);
    }
    if registers::read_only(offset) {
        return Err(Refusal::ReadOnly);
    }
    if registers::undocumented(offset, value) {
        return Err(Refusal::UndocumentedBits);
    }
    if registers::not_written(offset, value) {
        return Err(Refusal::NotCarried);
    }
    Ok(())
}

#[unsafe(no_mangle)]
pub extern "C" fn tenonwhisk_write(state: &mut [u16], offset: u32, value: u16) -> u8
    ensures { KeepsStill (writing offset value) state.old (written result) state.new }
{
    let Some(buffer) = state.as_mut_array() else {
        return Refusal::NotAState.number();
    };
    if let Err(refusal) = check_write(buffer, offset, value) {
        return refusal.number();
    }
    register_write::write(buffer, offset, value);
    0
}

fn check_read(state: &[u16], offset: u32) -> Result<&Buffer, Refusal>
    ensures { (answered result ≡ number_in (reading offset) state.now 0 0) × IfOk result (λ b. b.now ≡ state.now) }
{
    let buffer = calls::check_state(state)?;
    if !registers::listed(offset) {
        return Err(Refusal::UnlistedOffset);
    }
    if offset == 0x1A8 {
        return Err(Refusal::NotCarried);
    }
    Ok(buffer)
}

#[unsafe(no_mangle)]
pub extern "C" fn tenonwhisk_read(state: &[u16], offset: u32) -> Reading
    ensures { KeepsStill (reading offset) state.now (valued result.number result.value) state.now }
{
    match check_read(state, offset) {
        Ok(buffer) => Reading {
            number: 0,
            value: register_read::read(buffer, offset),
        },
        Err(refusal) => Reading {
            number: refusal.number(),
            value: 0,
        },
    }
}

// Whether there is a block view at an address; ram is the length of sound RAM.
fn check_view(state: &[u16], ram: usize, address: u32) -> Result<(), Refusal>
    ensures { answered result ≡ number_in (view address) state.now ram 0 }
{
    let Some(buffer) = range_check::tagged(state) else {
        return Err(Refusal::NotAState);
    };
    let size = layout::size(buffer);
    if ram != size as usize {
        return Err(Refusal::OtherLength);
    }
    if !range_check::check(buffer) {
        return Err(Refusal::NotAState);
    }
    if (address % 8 != 0) | (size - 16 < address) {
        return Err(Refusal::BadBlock);
    }
    Ok(())
}

// The number that the block view gives at an address.
#[unsafe(no_mangle)]
pub extern "C" fn tenonwhisk_view_number(state: &[u16], ram: &[u8], address: u32) -> u8
    ensures { (result ≡ number_in (view address) state.now (length ram.now) 0) × ((marks : List ℕ) → Keeps (view address) state.now ram.now marks (viewed result (view_length result)) false false state.now ram.now marks) }
{
    match check_view(state, ram.len(), address) {
        Ok(()) => 0,
        Err(refusal) => refusal.number(),
    }
}

// The sixteen bytes of the block there, in the caller's own RAM; none if the view is refused.
pub fn block_view<'a>(state: &[u16], ram: &'a [u8], address: u32) -> &'a [u8]
    ensures { result.now ≡ view_of state.now ram.now address }
{
    match check_view(state, ram.len(), address) {
        Ok(()) => {
            let a = address as usize;
            &ram[a..a + 16]
        }
        Err(_) => &ram[..0],
    }
}
