// A line as it is read byte by byte, up to its end.
#![tactic(auto)]

ghost use Rattle.std.specs.Prelude.{◌≡◌, drop, set};
ghost use Rattle.lines.specs.Fields.{blank as blank_at};
ghost use Rattle.lines.specs.Line.{joined_of, ended_of, begun_of, grown_of, feed_of, scan_of};

use lines::{Field, Line, Scanned};

fn blank(b: u8) -> bool
    ensures { result ≡ blank_at b }
{
    matches!(b, b' ' | b'\t' | b'\r')
}

// The fields with one more at an index; past the 34th none is kept.
fn stored(mut fields: [Field; 34], n: usize, f: Field) -> [Field; 34]
    ensures { result ≡ set fields n f }
{
    if n < 34 {
        fields[n] = f;
    }
    fields
}

// The running field joins the others.
fn join(l: Line) -> Line
    ensures { result ≡ joined_of l }
{
    Line {
        running: Field::none(),
        fields: stored(l.fields, l.count, l.running),
        count: l.count.saturating_add(1).min(34),
        halfwords: l.halfwords & ((l.count == 0) | l.running.is_hex(1, 4)),
        ..l
    }
}

// The end of the field that runs, if one does: at a blank, and at the line's end.
pub fn finish(l: Line) -> Line
    ensures { result ≡ ended_of l }
{
    if l.running.length == 0 {
        return l;
    }
    join(l)
}

fn begin(l: Line, b: u8) -> Line
    ensures { result ≡ begun_of l b }
{
    Line {
        begun: true,
        comment: l.comment | (!l.begun & (b == b'#')),
        ..l
    }
}

fn grow(l: Line, b: u8) -> Line
    ensures { result ≡ grown_of l b }
{
    Line {
        running: l.running.more(b),
        ..l
    }
}

// A line with one byte more.
pub fn feed(l: Line, b: u8) -> Line
    ensures { result ≡ feed_of l b }
{
    let t = begin(l, b);
    if blank(b) {
        return finish(t);
    }
    grow(t, b)
}

// The bytes from an index on, up to a line's end or their own.
pub fn scan(l: Line, bytes: &[u8], from: usize) -> Scanned
    ensures { result ≡ scan_of l from (drop from bytes.now) }
{
    let rest = &bytes[from.min(bytes.len())..];
    let mut line = l;
    for (i, &b) in rest.iter().enumerate() {
        if b == b'\n' {
            return Scanned::Ended {
                line,
                at: from + i + 1,
            };
        }
        line = feed(line, b);
    }
    Scanned::Open {
        line,
        at: from + rest.len(),
    }
}
