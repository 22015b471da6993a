// Bytes and numbers as text in a lent buffer. `fmt::Write`, `Display` and `write!` would put the same bytes, but their contracts say so only of an `Ok`, and
// none says when the answer is `Ok`, even of a u32 and a writer that always answers `Ok`: these methods cannot fail.
#![tactic(auto)]

ghost use Rattle.std.specs.Prelude.{◌≡◌, ◌++◌, ◌+◌, ◌≤◌, length};
ghost use Rattle.text.specs.Text.{ascii, decimal_of, hex_of};
ghost use Rattle.text.specs.TextClauses.{HasRoom, Begun, Wrote, Grown};

// A lent buffer, and how many of its bytes are text.
#[derive(Drop)]
pub struct Text<'a> {
    buf: &'a mut [u8],
    len: usize,
}

impl<'a> Text<'a> {
    // No text yet.
    pub fn new(buf: &'a mut [u8]) -> Text<'a>
        ensures same_reference { result.buf.ghost_name ≡ buf.entry.ghost_name }
        ensures empty { Begun buf.old result }
    {
        Text { buf, len: 0 }
    }

    pub fn len(&self) -> usize
        ensures { result ≡ self.now.len }
    {
        self.len
    }

    // The bytes of `piece`.
    pub fn put(&mut self, piece: &[u8])
        requires { HasRoom (length piece.now) self.old }
        ensures text { Wrote piece.now self.old self.new }
        ensures len { Grown (length piece.now) self.old self.new }
    {
        let next = self.len + piece.len();
        self.buf[self.len..next].copy_from_slice(piece);
        self.len = next;
    }

    // n in decimal: at most ten digits.
    pub fn put_decimal(&mut self, n: u32)
        requires { HasRoom 10 self.old }
        ensures text { Wrote (decimal_of n) self.old self.new }
        ensures len { Grown 10 self.old self.new }
    {
        let mut digits = [0u8; 20];
        let count = io::decimal(n as u64, &mut digits);
        self.put(&digits[..count]);
    }

    // n in eight hexadecimal digits.
    pub fn put_hex(&mut self, n: u32)
        requires { HasRoom 8 self.old }
        ensures text { Wrote (hex_of n) self.old self.new }
        ensures len { Grown 8 self.old self.new }
    {
        let mut digits = [0u8; 16];
        let count = io::hex(n as u64, 8, &mut digits);
        self.put(&digits[..count]);
    }

    // A text of up to eight bytes, then n in decimal.
    pub fn put_named(&mut self, name: &[u8], n: u32)
        requires { (length name.now ≤ 8) × HasRoom 18 self.old }
        ensures text { Wrote (name.now ++ decimal_of n) self.old self.new }
        ensures len { Grown 18 self.old self.new }
    {
        self.put(name);
        self.put_decimal(n);
    }

    // n in eight hexadecimal digits, after a space.
    pub fn put_next_hex(&mut self, n: u32)
        requires { HasRoom 9 self.old }
        ensures text { Wrote (ascii " " ++ hex_of n) self.old self.new }
        ensures len { Grown 9 self.old self.new }
    {
        self.put(b" ");
        self.put_hex(n);
    }
}
