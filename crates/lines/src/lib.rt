// What is kept of a line of text and of each field, and the tests of a field. A line may be of any length: what is kept is bounded.
#![tactic(auto)]

ghost use Rattle.std.specs.Prelude.{◌≡◌, ◌+◌, ◌*◌, ◌%◌, ◌<◌, ◌≤◌, min};
ghost use Rattle.lines.specs.Fields.{digit_of};
ghost use Rattle.lines.specs.Line.{when, none_of, more_of, is_hex, is_count, fresh_of};

// A field: its length, its bytes as one number, whether they are hex digits and their value, whether they are decimal digits and the
// count. Each number is kept up to a limit. The flags stand beside the numbers, since `field_of` gives a number of bytes that are no digits too.
#[derive(Clone, Copy)]
pub struct Field {
    pub length: u64,
    pub word: u64,
    pub hex: bool,
    pub value: u64,
    pub decimal: bool,
    pub count: u64,
}

// A line so far: whether it has a byte, whether the first is #, the field that runs, the first 34 that have ended, how many
// have, up to 34, and whether all after the first are halfwords. The fields are an array with a count beside it, in fixed memory: the
// tests of a command (`field_at`) read fields past the count too.
#[derive(Clone, Copy)]
pub struct Line {
    pub begun: bool,
    pub comment: bool,
    pub running: Field,
    pub fields: [Field; 34],
    pub count: usize,
    pub halfwords: bool,
}

// A line after a run of bytes, at its end or at theirs, and the index past it.
#[derive(Clone, Copy)]
pub enum Scanned {
    Ended { line: Line, at: usize },
    Open { line: Line, at: usize },
}

// What a hex digit counts, 16 for a byte that is none.
fn digit(b: u8) -> u64
    ensures { result ≡ digit_of b }
{
    u64::from(char::from(b).to_digit(16).unwrap_or(16))
}

// A number with one digit more, up to a limit.
fn longer(n: u64, base: u64, d: u64, limit: u64) -> u64
    requires { (0 < base) × (base ≤ 256) × (d ≤ 256) × (limit ≤ 0x1000000000000) }
    ensures { result ≡ min (n * base + d) limit }
{
    (n.min(limit) * base + d).min(limit)
}

impl Field {
    // A field that has no byte yet.
    pub fn none() -> Self
        ensures { result ≡ none_of }
    {
        Field {
            length: 0,
            word: 1,
            hex: true,
            value: 0,
            decimal: true,
            count: 0,
        }
    }

    // The field with one byte more.
    pub fn more(self, b: u8) -> Self
        ensures { result ≡ more_of self b }
    {
        let d = digit(b);
        Field {
            length: self.length.saturating_add(1).min(9),
            word: longer(self.word, 256, u64::from(b), 0x1000000000000),
            hex: self.hex & (d < 16),
            value: longer(self.value, 16, d, 0xFFFFFFFF),
            decimal: self.decimal & (d < 10),
            count: longer(self.count, 10, d, 1000000),
        }
    }

    // Whether a field is hex digits, from least to most of them.
    pub fn is_hex(self, least: u64, most: u64) -> bool
        ensures { result ≡ is_hex least most self }
    {
        self.hex & ((least <= self.length) & (self.length <= most))
    }

    // The value of a field of hex digits, from least to most of them. Of a field that was read, the remainder is the value itself.
    pub fn hex_within(self, least: u64, most: u64) -> Option<u32>
        ensures { result ≡ when (is_hex least most self) (self.value % 0x100000000) }
    {
        if self.is_hex(least, most) {
            Some((self.value % 0x100000000) as u32)
        } else {
            None
        }
    }

    // The count of a field of decimal digits, if it goes from least to most. Of a field that was read, the remainder is the count
    // itself.
    pub fn count_within(self, least: u64, most: u64) -> Option<u32>
        ensures { result ≡ when (is_count least most self) (self.count % 0x100000000) }
    {
        if self.decimal & (!(self.length == 0) & ((least <= self.count) & (self.count <= most))) {
            Some((self.count % 0x100000000) as u32)
        } else {
            None
        }
    }
}

impl Line {
    // A line of which nothing is read yet.
    pub fn fresh() -> Self
        ensures { result ≡ fresh_of }
    {
        let running = Field::none();
        Line {
            begun: false,
            comment: false,
            running,
            fields: [running; 34],
            count: 0,
            halfwords: true,
        }
    }
}
