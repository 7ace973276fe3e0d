// Lines put into a buffer, byte behind byte.
#![tactic(auto)]

ghost use Rattle.std.specs.Prelude.{◌+◌, ◌<◌, ◌≤◌, ◌≡◌, [], ◌∷◌, length};
ghost use Rattle.lines.specs.Lines.{digit, decimal, hex, line, Puts};

use numbers::Answered;

// A buffer, and where its next byte is put.
#[derive(Drop)]
pub struct Writer<'a> {
    pub buffer: &'a mut [u8],
    pub at: usize,
}

#[tactic(auto, unfolding(crate::specs::Lines::digit))]
fn digit(d: u8) -> u8
    requires { d < 16 }
    ensures { result ≡ digit d }
{
    if d < 10 { b'0' + d } else { b'A' - 10 + d }
}

impl Writer<'_> {
    pub fn put(&mut self, byte: u8)
        requires { self.old.at < length self.old.buffer.now }
        ensures { Puts self.old self.new (byte ∷ []) }
    {
        self.buffer[self.at] = byte;
        self.at += 1;
    }

    pub fn put_bytes(&mut self, bytes: &[u8])
        requires { self.old.at + length bytes.now ≤ length self.old.buffer.now }
        ensures { Puts self.old self.new bytes.now }
    {
        let end = self.at + bytes.len();
        self.buffer[self.at..end].copy_from_slice(bytes);
        self.at = end;
    }

    // Kept (docs/DESIGN-PASS.md, 4), with put_hex and put_line: the promise. `write!` promises its bytes where it is Ok, and never that it is.
    fn put_decimal(&mut self, n: u8)
        requires { self.old.at + 3 ≤ length self.old.buffer.now }
        ensures puts { Puts self.old self.new (decimal n) }
        ensures short { self.new.at ≤ self.old.at + 3 }
    {
        if n < 10 {
            return self.put(digit(n));
        }
        if n >= 100 {
            self.put(digit(n / 100));
        }
        self.put(digit(n / 10 % 10));
        self.put(digit(n % 10));
    }

    pub fn put_hex(&mut self, n: u8)
        requires { self.old.at + 3 ≤ length self.old.buffer.now }
        ensures { Puts self.old self.new (hex n) }
    {
        self.put(b' ');
        self.put(digit(n / 16));
        self.put(digit(n % 16));
    }

    pub fn put_line(&mut self, a: Answered)
        requires { self.old.at + 20 ≤ length self.old.buffer.now }
        ensures puts { Puts self.old self.new (line a) }
        ensures short { self.new.at ≤ self.old.at + 20 }
    {
        self.put_decimal(a.answer);
        self.put_hex(a.status);
        self.put_hex(a.key);
        self.put_hex(a.code);
        self.put_hex(a.qualifier);
        self.put(b' ');
        self.put_decimal(a.ended);
        self.put(b'\n');
    }
}
