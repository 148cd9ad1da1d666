// The lines that show halfwords, bytes and marks, put into an output.
#![tactic(auto)]

ghost use Rattle.std.specs.Prelude.{◌≡◌, ◌+◌, ◌<◌, ◌/◌, ◌^◌, length, get_or};
ghost use Rattle.soundram.specs.Memory.{marked as is_marked_at};
ghost use Rattle.text.specs.Output.{Puts};
ghost use Rattle.answers.specs.Answer.{halfwords_from, halfwords_end, outward_text, bytes_from, bytes_end, view_text, ram_text, marks_from, marks_end, marks_text};

use answers::Transfer;
use text::Output;

fn halfwords(out: &mut Output, values: &[u16])
    ensures { Puts (halfwords_from values.now 0 (length values.now)) out.old out.new }
{
    for &value in values {
        answers::hex_part(out, u32::from(value), 4);
    }
}

fn halfwords_end(out: &mut Output, values: &[u16])
    ensures { Puts (halfwords_end values.now) out.old out.new }
{
    out.put_text(b" :");
    halfwords(out, values);
    out.put_byte(b'\n');
}

pub fn moved_out(out: &mut Output, t: Transfer, values: &[u16])
    ensures { Puts (outward_text t.number t.count t.irq t.doubt values.now) out.old out.new }
{
    answers::moved(out, b'o', t);
    halfwords_end(out, values);
}

// The byte at an index, 0 past the end.
fn byte_at(bytes: &[u8], i: usize) -> u8
    ensures { result ≡ get_or bytes.now i 0 }
{
    bytes.get(i).copied().unwrap_or(0)
}

fn bytes(out: &mut Output, values: &[u8], from: usize, n: usize)
    requires { from + n < 2 ^ 64 }
    ensures { Puts (bytes_from values.now from n) out.old out.new }
{
    for i in from..from + n {
        out.put_hex(u32::from(byte_at(values, i)), 2);
    }
}

// Beside `marks_end`: as one function it would take a closure, and its clause what the closure puts.
fn bytes_end(out: &mut Output, values: &[u8], from: usize, n: usize)
    requires { from + n < 2 ^ 64 }
    ensures { Puts (bytes_end values.now from n) out.old out.new }
{
    out.put_byte(b' ');
    bytes(out, values, from, n);
    out.put_byte(b'\n');
}

pub fn viewed(out: &mut Output, number: u8, view: &[u8])
    ensures { Puts (view_text number view.now) out.old out.new }
{
    answers::start(out, b'v', number);
    answers::decimal_part(out, view.len() as u64);
    bytes_end(out, view, 0, view.len());
}

pub fn ram(out: &mut Output, address: u32, n: u32, values: &[u8])
    ensures { Puts (ram_text address n values.now) out.old out.new }
{
    out.put_text(b"ram");
    answers::hex_part(out, address, 5);
    bytes_end(out, values, address as usize, n as usize);
}

fn marked(marks: &[u8], h: usize) -> bool
    ensures { result ≡ is_marked_at marks.now h }
{
    (byte_at(marks, h / 8) >> (h % 8)) % 2 == 1
}

fn marks_from(out: &mut Output, values: &[u8], from: usize, n: usize)
    requires { from + n < 2 ^ 64 }
    ensures { Puts (marks_from values.now from n) out.old out.new }
{
    for h in from..from + n {
        out.put_flag(marked(values, h));
    }
}

fn marks_end(out: &mut Output, values: &[u8], from: usize, n: usize)
    requires { from + n < 2 ^ 64 }
    ensures { Puts (marks_end values.now from n) out.old out.new }
{
    out.put_byte(b' ');
    marks_from(out, values, from, n);
    out.put_byte(b'\n');
}

pub fn marks(out: &mut Output, address: u32, n: u32, values: &[u8])
    ensures { Puts (marks_text address (address / 2) n values.now) out.old out.new }
{
    out.put_text(b"marks");
    answers::hex_part(out, address, 5);
    marks_end(out, values, address as usize / 2, n as usize);
}
