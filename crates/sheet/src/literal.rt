// Literals, and the bytes that stand for them: a byte's two's complement number has the literal's sign, and is as far from zero as the atom says.
ghost use Rattle.std.specs.Prelude.{◌≡◌, true, ◌≤◌, ◌<◌, length};
ghost use Rattle.words.specs.Lists.{all};
ghost use Rattle.sheet.specs.Literals.{is_literal};

/// An atom, or its negation. Each has a place in a word of 64 bits.
#[derive(Clone, Copy, Debug, PartialEq, Eq)]
pub struct Literal {
    pub plain: bool,
    pub atom: u8,
    pub ghost placed: { (1 ≤ atom) × (atom ≤ 64) },
}

impl Literal {
    ghost use Rattle.std.specs.Option.{option_map};
    ghost use Rattle.sheet.specs.Literals.{literal, complement, place, byte_of};
    ghost use Rattle.sheet.specs.Enums.{lit, literal_in};

    /// The literal that a byte is among n atoms.
    // n keeps its bound in the two clauses that need it: a type for one bound on one number would be made at each call, and say no more.
    pub fn read(b: u8, n: u8) -> Option<Literal>
        requires { n ≤ 64 }
        ensures { option_map lit result ≡ literal_in n b }
    {
        let v = b.cast_signed();
        // -128 has no negation, so it is refused before: the document asks for it in this form, which `unsigned_abs` would hide.
        if v == -128 {
            return None;
        }
        let distance = if v < 0 { -v } else { v } as u8;
        if distance == 0 || n < distance {
            return None;
        }
        Some(Literal {
            plain: 0 < v,
            atom: distance,
        })
    }

    /// The literal of a byte that is one.
    // Not by `read`, though by the same number: a walk asks this of each objective at each full node, where all that `read` refuses, -128 too, is ruled out already.
    pub fn of(b: u8) -> Literal
        requires { is_literal 64 b ≡ true }
        ensures { lit result ≡ literal b }
    {
        let number = b.cast_signed();
        Literal {
            plain: 0 < number,
            atom: if number < 0 { -number } else { number } as u8,
        }
    }

    pub fn complement(self) -> Literal
        ensures { lit result ≡ complement (lit self) }
    {
        Literal {
            plain: !self.plain,
            atom: self.atom,
        }
    }

    /// The position of its atom in a word.
    pub fn place(self) -> u8
        ensures { result ≡ place (lit self) }
    {
        self.atom - 1
    }

    /// The byte that stands for it.
    pub fn byte(self) -> u8
        ensures { result ≡ byte_of (lit self) }
    {
        if self.plain {
            self.atom
        } else {
            self.atom.wrapping_neg()
        }
    }
}

/// Whether a byte is a literal of n atoms.
// The bound of n is said of `read`.
pub fn is_literal(b: u8, n: u8) -> bool
    requires { n ≤ 64 }
    ensures { result ≡ is_literal n b }
{
    Literal::read(b, n).is_some()
}

/// Bytes of which each is a literal.
#[derive(Clone, Copy, Debug)]
pub struct LiteralBytes<'a> {
    pub bytes: &'a [u8],
    pub ghost literals: { all (is_literal 64) bytes.now ≡ true },
}

impl LiteralBytes<'_> {
    ghost use Rattle.sheet.specs.Layout.{byte};
    ghost use Rattle.sheet.specs.Literals.{literal};
    ghost use Rattle.sheet.specs.Enums.{lit};

    /// The literal at a place.
    pub fn at(self, i: usize) -> Literal
        requires { i < length self.bytes.now }
        ensures { lit result ≡ literal (byte self.entry.bytes.now i) }
    {
        Literal::of(self.bytes[i])
    }
}
