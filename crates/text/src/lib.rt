// Text put into lent bytes, one after another.
#![tactic(auto)]

ghost use Rattle.std.specs.Prelude.{◌≡◌, [], ◌∷◌, ◌-◌, ◌<◌, ◌≤◌, ◌^◌};
ghost use Rattle.text.specs.Text.{glyph_of, digits_of, hex_text, decimal_text, signed_text, flag_text};
ghost use Rattle.text.specs.Output.{Puts};

// Lent bytes, and the place up to which they are written.
#[derive(Drop)]
pub struct Output<'a> {
    pub bytes: &'a mut [u8],
    pub place: usize,
}

impl Output<'_> {
    // One byte; it is dropped where there is no room.
    pub fn put_byte(&mut self, b: u8)
        ensures { Puts (b ∷ []) self.old self.new }
    {
        if self.place < self.bytes.len() {
            self.bytes[self.place] = b;
            self.place += 1;
        }
    }

    pub fn put_text(&mut self, text: &[u8])
        ensures { Puts text.now self.old self.new }
    {
        for &b in text {
            self.put_byte(b);
        }
    }

    // The last k digits of n, where the first of them counts power.
    fn put_digits(&mut self, base: u64, n: u64, k: u32, power: u64)
        requires { (1 < base) × (base ≤ 16) × (0 < k) × (power ≡ base ^ (k - 1)) }
        ensures { Puts (digits_of base n k) self.old self.new }
    {
        let mut p = power;
        for _i in 0..k {
            self.put_byte(glyph(n / p % base));
            p /= base;
        }
    }

    // The last k hex digits of n, in upper case.
    pub fn put_hex(&mut self, n: u32, k: u32)
        requires { (0 < k) × (k ≤ 8) }
        ensures { Puts (hex_text n k) self.old self.new }
    {
        self.put_digits(16, n as u64, k, 1u64 << (4 * (k - 1)));
    }

    pub fn put_decimal(&mut self, n: u64)
        ensures { Puts (decimal_text n) self.old self.new }
    {
        let mut k: u32 = 20;
        let mut power: u64 = 10000000000000000000;
        while (k > 1) & (n / power % 10 == 0) {
            power /= 10;
            k -= 1;
        }
        self.put_digits(10, n, k, power);
    }

    pub fn put_signed(&mut self, x: i16)
        ensures { Puts (signed_text x) self.old self.new }
    {
        if x < 0 {
            self.put_byte(b'-');
        }
        self.put_decimal(x.unsigned_abs() as u64);
    }

    // A bool as 0 or 1.
    pub fn put_flag(&mut self, b: bool)
        ensures { Puts (flag_text b) self.old self.new }
    {
        self.put_byte(if b { b'1' } else { b'0' });
    }
}

fn glyph(d: u64) -> u8
    requires { d < 16 }
    ensures { result ≡ glyph_of d }
{
    b"0123456789ABCDEF"[d as usize]
}
