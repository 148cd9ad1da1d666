// The lines that the programs answer, put into an output: their parts, and the short lines. A number is what the call for C gave, 0 unless it was refused.
#![tactic(auto)]

ghost use Rattle.std.specs.Prelude.{◌<◌, ◌≤◌};
ghost use Rattle.text.specs.Output.{Puts};
ghost use Rattle.answers.specs.Answer.{decimal_part, flag_part, hex_part, reports_part, start_of, write_text, read_text, moved_of, inward_text, reset_text, refused_text, bench_number, write_answer, inward_answer, title_text, end_text};

use text::Output;

// What a transfer answers.
#[derive(Clone, Copy)]
pub struct Transfer {
    pub number: u8,
    pub count: u32,
    pub irq: bool,
    pub doubt: bool,
}

// ---- parts of a line, each after a blank

pub fn decimal_part(out: &mut Output, n: u64)
    ensures { Puts (decimal_part n) out.old out.new }
{
    out.put_byte(b' ');
    out.put_decimal(n);
}

pub fn flag_part(out: &mut Output, b: bool)
    ensures { Puts (flag_part b) out.old out.new }
{
    out.put_byte(b' ');
    out.put_flag(b);
}

pub fn hex_part(out: &mut Output, n: u32, k: u32)
    requires { (0 < k) × (k ≤ 8) }
    ensures { Puts (hex_part n k) out.old out.new }
{
    out.put_byte(b' ');
    out.put_hex(n, k);
}

pub fn reports_part(out: &mut Output, irq: bool, doubt: bool)
    ensures { Puts (reports_part irq doubt) out.old out.new }
{
    flag_part(out, irq);
    flag_part(out, doubt);
}

// ---- how a line begins

// A command's letter and its number.
pub fn start(out: &mut Output, letter: u8, number: u8)
    ensures { Puts (start_of letter number) out.old out.new }
{
    out.put_byte(letter);
    decimal_part(out, number as u64);
}

pub fn moved(out: &mut Output, letter: u8, t: Transfer)
    ensures { Puts (moved_of letter t.number t.count t.irq t.doubt) out.old out.new }
{
    start(out, letter, t.number);
    decimal_part(out, t.count as u64);
    reports_part(out, t.irq, t.doubt);
}

// ---- lines

pub fn wrote(out: &mut Output, number: u8)
    ensures { Puts (write_text number) out.old out.new }
{
    start(out, b'w', number);
    out.put_byte(b'\n');
}

pub fn was_read(out: &mut Output, number: u8, value: u16)
    ensures { Puts (read_text number value) out.old out.new }
{
    start(out, b'r', number);
    hex_part(out, value as u32, 4);
    out.put_byte(b'\n');
}

pub fn moved_in(out: &mut Output, t: Transfer)
    ensures { Puts (inward_text t.number t.count t.irq t.doubt) out.old out.new }
{
    moved(out, b's', t);
    out.put_byte(b'\n');
}

pub fn was_reset(out: &mut Output, number: u8)
    ensures { Puts (reset_text number) out.old out.new }
{
    out.put_text(b"reset");
    decimal_part(out, number as u64);
    out.put_byte(b'\n');
}

pub fn refused(out: &mut Output, number: u8)
    ensures { Puts (refused_text number) out.old out.new }
{
    out.put_text(b"refused");
    decimal_part(out, number as u64);
    out.put_byte(b'\n');
}

// What bench prints of a write or a transfer: the number of a refused one, nothing of an accepted one.
pub fn bench_number(out: &mut Output, number: u8)
    ensures { Puts (bench_number number) out.old out.new }
{
    if number != 0 {
        refused(out, number);
    }
}

// `bench` says which program answers here and below: `write_answer`, `inward_answer` and `tick_answer` are defined over it.
pub fn write_answer(out: &mut Output, bench: bool, number: u8)
    ensures { Puts (write_answer bench number) out.old out.new }
{
    if bench {
        bench_number(out, number);
    } else {
        wrote(out, number);
    }
}

pub fn inward_answer(out: &mut Output, bench: bool, t: Transfer)
    ensures { Puts (inward_answer bench t.number t.count t.irq t.doubt) out.old out.new }
{
    if bench {
        bench_number(out, t.number);
    } else {
        moved_in(out, t);
    }
}

// A program's name and L.
pub fn title(out: &mut Output, name: &[u8], size: u32)
    ensures { Puts (title_text name.now size) out.old out.new }
{
    out.put_text(name);
    decimal_part(out, size as u64);
    out.put_byte(b'\n');
}

// A program's last line: the state's doubt.
pub fn ended(out: &mut Output, doubt: bool)
    ensures { Puts (end_text doubt) out.old out.new }
{
    if doubt {
        out.put_text(b"end doubt\n");
    } else {
        out.put_text(b"end clear\n");
    }
}
