// Text put into a lent buffer, by methods that cannot fail where there is room. `write!` and `Display` would leave an error to handle, and promise the bytes
// only where there was none.
#![tactic(auto)]

ghost use Rattle.std.specs.Prelude.{◌+◌, ◌≤◌, length};
ghost use Rattle.text.specs.Text.{decimal, signed_decimal, Adds};

use itoa::Buffer;

/// A lent buffer, and where the text in it ends: nothing is allocated. How much room is wanted differs from text to text, so each method asks for its own.
#[derive(Debug, Drop)]
pub struct Text<'a> {
    pub bytes: &'a mut [u8],
    pub end: usize,
}

impl Text<'_> {
    /// Puts the bytes of a text.
    pub fn put(&mut self, text: &[u8])
        requires { self.old.end + length text.now ≤ length self.old.bytes.now }
        ensures { Adds text.now self.old self.new }
    {
        let end = self.end + text.len();
        self.bytes[self.end..end].copy_from_slice(text);
        self.end = end;
    }

    /// Puts a number in decimal.
    pub fn put_decimal(&mut self, n: u64)
        requires { self.old.end + length (decimal n) ≤ length self.old.bytes.now }
        ensures { Adds (decimal n) self.old self.new }
    {
        self.put(Buffer::new().format(n).as_bytes());
    }

    /// Puts a number by its sign and its distance from zero.
    pub fn put_signed(&mut self, minus: bool, n: u64)
        requires { self.old.end + length (signed_decimal minus n) ≤ length self.old.bytes.now }
        ensures { Adds (signed_decimal minus n) self.old self.new }
    {
        if minus {
            self.put(b"-");
        }
        self.put_decimal(n);
    }
}
