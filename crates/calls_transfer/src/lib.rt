// Calls on a lent state: halfwords moved into and out of sound RAM. What C gets has a number, 0 unless the call is refused.
#![tactic(auto)]

ghost use Rattle.std.specs.Prelude.{◌≡◌, false, ◌&&◌, not, ◌%◌, length};
ghost use Rattle.chip.specs.State.{with_transfer, watched_of};
ghost use Rattle.layout.specs.Layout.{state_of, is_state, Formed, Holds};
ghost use Rattle.spu.specs.Step.{moved, moved_out, transfer_in, transfer_out, bad_count, lent_tests, move_tests};
ghost use Rattle.calls.specs.Kept.{tested_of, Keeps};
ghost use Rattle.calls.specs.Refusals.{number_of, answered};
ghost use Rattle.calls_transfer.specs.Direction.{other_mode};

use calls::Refusal;
use layout::Buffer;
use soundram::Watch;
use transfer::Moved as Ended;

// Which way halfwords move.
#[derive(Clone, Copy)]
enum Direction {
    Inward,
    Outward,
}

// What a transfer gives: how many halfwords moved.
#[repr(C)]
#[derive(Clone, Copy)]
pub struct Moved {
    pub number: u8,
    pub irq: bool,
    pub doubt: bool,
    pub count: u32,
}

fn bad_count(n: usize) -> bool
    ensures { result ≡ bad_count n }
{
    (n == 0) | (32 < n)
}

fn is_other_mode(state: &Buffer, direction: Direction) -> bool
    ensures { result ≡ other_mode direction (state_of state.now) }
{
    let mode = layout::control(state).applied / 16 % 4;
    match direction {
        Direction::Inward => !((mode == 1) | (mode == 2)),
        Direction::Outward => mode != 3,
    }
}

// Whether a transfer may be made; ram, marks and count are the lengths of what is lent and of what moves.
fn check(
    state: &[u16],
    direction: Direction,
    ram: usize,
    marks: usize,
    count: usize,
) -> Result<(), Refusal>
    ensures { answered result ≡ tested_of state.now (lent_tests (is_state state.now) (state_of state.now) ram marks (move_tests (other_mode direction (state_of state.now)) count)) }
{
    let buffer = calls::check_lent(state, ram, marks)?;
    if is_other_mode(buffer, direction) {
        return Err(Refusal::OtherMode);
    }
    if bad_count(count) {
        return Err(Refusal::BadCount);
    }
    Ok(())
}

fn refused(refusal: Refusal) -> Moved
    ensures { result ≡ record { number = number_of refusal; irq = false; doubt = false; count = 0 } }
{
    Moved {
        number: refusal.number(),
        irq: false,
        doubt: false,
        count: 0,
    }
}

// Puts the address and what was watched in place once count halfwords have moved; w was watched before.
fn accepted(state: &mut Buffer, count: u32, w: Watch, m: Ended) -> Moved
    requires { Formed state.old × (m.value.0 % 2 ≡ 0) }
    ensures { (result ≡ record { number = 0; irq = m.watch.latch && not w.latch; doubt = m.watch.doubt && not w.doubt; count = count }) × Holds state.new (watched_of (with_transfer (state_of state.old) m.value) m.watch) }
{
    layout::put_transfer(state, m.value);
    layout::put_watch(state, m.watch);
    Moved {
        number: 0,
        irq: m.watch.latch & !w.latch,
        doubt: m.watch.doubt & !w.doubt,
        count,
    }
}

// Halfwords into sound RAM.
#[unsafe(no_mangle)]
pub extern "C" fn tenonwhisk_transfer_in(
    state: &mut [u16],
    ram: &mut [u8],
    marks: &mut [u8],
    values: &[u16],
) -> Moved
    ensures { Keeps (transfer_in values.now) state.old ram.old marks.old (moved result.number result.count) result.irq result.doubt state.new ram.new marks.new }
{
    let Some(buffer) = state.as_mut_array() else {
        return refused(Refusal::NotAState);
    };
    if let Err(refusal) = check(
        buffer,
        Direction::Inward,
        ram.len(),
        marks.len(),
        values.len(),
    ) {
        return refused(refusal);
    }
    let count = values.len() as u32;
    let size = layout::size(buffer);
    let a = layout::transfer(buffer);
    let w = layout::watch(buffer);
    let m = transfer::inward(ram, marks, size, a, values, w);
    accepted(buffer, count, w, m)
}

// Halfwords out of sound RAM, as many as the buffer holds.
#[unsafe(no_mangle)]
pub extern "C" fn tenonwhisk_transfer_out(
    state: &mut [u16],
    ram: &[u8],
    marks: &[u8],
    out: &mut [u16],
) -> Moved
    ensures { Keeps (transfer_out out.old) state.old ram.now marks.now (moved_out result.number result.count out.new) result.irq result.doubt state.new ram.now marks.now }
{
    let Some(buffer) = state.as_mut_array() else {
        return refused(Refusal::NotAState);
    };
    if let Err(refusal) = check(
        buffer,
        Direction::Outward,
        ram.len(),
        marks.len(),
        out.len(),
    ) {
        return refused(refusal);
    }
    let count = out.len() as u32;
    let size = layout::size(buffer);
    let a = layout::transfer(buffer);
    let w = layout::watch(buffer);
    let m = transfer::outward(ram, marks, size, a, out, w);
    accepted(buffer, count, w, m)
}
