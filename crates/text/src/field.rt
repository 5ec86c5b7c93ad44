// Text put into a lent buffer, behind what is filled of it: bytes and numbers.
ghost use Rattle.std.specs.Prelude.{[], ◌∷◌, ◌+◌, ◌≤◌, length};
ghost use Rattle.quantity.specs.Word.{signed};
ghost use Rattle.text.specs.Text.{blank, decimal, signed_text};
ghost use Rattle.text.specs.Puts.{Puts};

use quantity::{WattHours, word};

// A buffer, and how many of its bytes are filled.
#[derive(Drop)]
pub struct Text<'a> {
    pub buffer: &'a mut [u8],
    pub filled: usize,
}

impl Text<'_> {
    pub fn put_byte(&mut self, b: u8)
        requires { self.old.filled + 1 ≤ length self.old.buffer.now }
        ensures { Puts 1 (b ∷ []) self.old self.new }
    {
        self.buffer[self.filled] = b;
        self.filled += 1;
    }

    // A number's decimal digits.
    pub fn put_number(&mut self, n: u64)
        requires { self.old.filled + 20 ≤ length self.old.buffer.now }
        ensures { Puts 20 (decimal n) self.old self.new }
    {
        let mut digits = [0u8; 20];
        let k = io::decimal(n, &mut digits);
        let end = self.filled + k;
        self.buffer[self.filled..end].copy_from_slice(&digits[..k]);
        self.filled = end;
    }

    // A blank and a number.
    pub fn put_field(&mut self, n: u64)
        requires { self.old.filled + 21 ≤ length self.old.buffer.now }
        ensures { Puts 21 (blank ∷ decimal n) self.old self.new }
    {
        self.put_byte(b' ');
        self.put_number(n);
    }

    // A blank and a figure.
    pub fn put_figure(&mut self, figure: WattHours)
        requires { self.old.filled + 22 ≤ length self.old.buffer.now }
        ensures { Puts 22 (blank ∷ signed_text (signed figure.0)) self.old self.new }
    {
        let w = figure.0;
        if !word::is_negative(figure) {
            return self.put_field(w);
        }
        self.put_byte(b' ');
        self.put_byte(b'-');
        self.put_number(0xffff_ffff_ffff_ffff - w + 1);
    }
}
