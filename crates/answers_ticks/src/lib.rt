// The lines that answer ticks, put into an output.
#![tactic(auto)]

ghost use Rattle.std.specs.Prelude.{◌≡◌, Bool, List, ℕ, ◌++◌};
ghost use Rattle.text.specs.Output.{Puts};
ghost use Rattle.answers.specs.Answer.{signed_part, hex_part, doubt_end, end_part, tick_start, tick_text, bits_of, floats_text, bench_text, tick_answer};
ghost use Rattle.answers_ticks.specs.Lines.{tick_text_is, floats_text_is};

use text::Output;

// What a tick answers: its number, the tick number before it, the pair, its reports, and the state's doubt after it.
#[derive(Clone, Copy)]
pub struct Tick<S> {
    pub number: u8,
    pub tick: u32,
    pub left: S,
    pub right: S,
    pub irq: bool,
    pub doubt: bool,
    pub after: bool,
}

// A side of the pair, as the lines show it after a blank, and the letter of those lines.
pub trait Sample: Copy {
    ghost LETTER: { ℕ };

    ghost part: { Self → List ℕ };

    ghost line: { ℕ → ℕ → Self → Self → Bool → Bool → Bool → List ℕ };

    const LETTER: u8;

    fn put(self, out: &mut Output)
        ensures { Puts (part self) out.old out.new };

    ghost line_is: { (number tick : ℕ) (left right : Self) (irq doubt after : Bool) → line number tick left right irq doubt after ≡ tick_start LETTER number tick ++ (part left ++ part right) ++ end_part irq doubt after };
}

impl Sample for i16 {
    ghost LETTER = { 116 };

    ghost part = { signed_part };

    ghost line = { tick_text };

    const LETTER: u8 = b't';

    ghost line_is = { tick_text_is };

    fn put(self, out: &mut Output) {
        out.put_byte(b' ');
        out.put_signed(self);
    }
}

impl Sample for f32 {
    ghost LETTER = { 102 };

    ghost part = { λ x. hex_part (bits_of x) 8 };

    ghost line = { floats_text };

    const LETTER: u8 = b'f';

    ghost line_is = { floats_text_is };

    fn put(self, out: &mut Output) {
        answers::hex_part(out, bits(self), 8);
    }
}

// The bits of a float that is a number, 0 for one that is none.
fn bits(x: f32) -> u32
    ensures { result ≡ bits_of x }
{
    if x.is_nan() { 0 } else { x.to_bits() }
}

fn pair_part<S: Sample>(out: &mut Output, left: S, right: S)
    ensures { Puts (S.part left ++ S.part right) out.old out.new }
{
    left.put(out);
    right.put(out);
}

fn doubt_end(out: &mut Output, doubt: bool)
    ensures { Puts (doubt_end doubt) out.old out.new }
{
    answers::flag_part(out, doubt);
    out.put_byte(b'\n');
}

fn end_part(out: &mut Output, irq: bool, doubt: bool, after: bool)
    ensures { Puts (end_part irq doubt after) out.old out.new }
{
    answers::reports_part(out, irq, doubt);
    doubt_end(out, after);
}

fn tick_start(out: &mut Output, letter: u8, number: u8, tick: u32)
    ensures { Puts (tick_start letter number tick) out.old out.new }
{
    answers::start(out, letter, number);
    answers::decimal_part(out, tick as u64);
}

pub fn ticked<S: Sample>(out: &mut Output, t: Tick<S>)
    ensures { Puts (S.line t.number t.tick t.left t.right t.irq t.doubt t.after) out.old out.new }
{
    tick_start(out, S::LETTER, t.number, t.tick);
    pair_part(out, t.left, t.right);
    end_part(out, t.irq, t.doubt, t.after);
}

pub fn bench_ticked(out: &mut Output, t: Tick<i16>)
    ensures { Puts (bench_text t.tick t.left t.right t.after) out.old out.new }
{
    out.put_decimal(t.tick as u64);
    pair_part(out, t.left, t.right);
    doubt_end(out, t.after);
}

pub fn tick_answer(out: &mut Output, bench: bool, t: Tick<i16>)
    ensures { Puts (tick_answer bench t.number t.tick t.left t.right t.irq t.doubt t.after) out.old out.new }
{
    if bench {
        bench_ticked(out, t);
    } else {
        ticked(out, t);
    }
}
