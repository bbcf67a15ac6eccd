// Where things stand on a sheet: its words, and its parts once it is known to be as long as its counts make it.
ghost use Rattle.std.specs.Prelude.{◌≡◌, ◌+◌, ◌≤◌, ◌<◌, length};
ghost use Rattle.sheet.specs.Layout.{word, atom_count, clause_count, clause_end, literal_bytes, objective_bytes};
ghost use Rattle.sheet.specs.Passed.{Whole};

/// The little-endian word of the four bytes from a place on.
#[tactic(auto, unfolding(crate::specs::Layout::word))]
pub fn word_at(s: &[u8], at: usize) -> u32
    requires { at + 4 ≤ length s.now }
    ensures { result ≡ word s.now at }
{
    u32::from_le_bytes([s[at], s[at + 1], s[at + 2], s[at + 3]])
}

/// A sheet past check 12: it is as long as its counts make it.
#[derive(Clone, Copy, Debug)]
pub struct Laid<'a> {
    pub bytes: &'a [u8],
    pub ghost whole: { Whole bytes.now },
}

impl<'a> Laid<'a> {
    pub fn atoms(self) -> u8
        ensures { result ≡ atom_count self.entry.bytes.now }
    {
        word_at(self.bytes, 0) as u8
    }

    pub fn clauses(self) -> usize
        ensures { result ≡ clause_count self.entry.bytes.now }
    {
        word_at(self.bytes, 4) as usize
    }

    /// How many literals stand in the clauses up to this one.
    pub fn clause_end(self, i: usize) -> usize
        requires { i < clause_count self.bytes.now }
        ensures { result ≡ clause_end self.entry.bytes.now i }
    {
        word_at(self.bytes, 32 + 4 * i) as usize
    }

    /// The bytes of all clauses.
    pub fn literals(self) -> &'a [u8]
        ensures { result.now ≡ literal_bytes self.entry.bytes.now }
    {
        let from = 32 + 4 * self.clauses();
        let to = from + word_at(self.bytes, 12) as usize;
        &self.bytes[from..to]
    }

    pub fn objectives(self) -> &'a [u8]
        ensures { result.now ≡ objective_bytes self.entry.bytes.now }
    {
        let from = 32 + 4 * self.clauses() + word_at(self.bytes, 12) as usize;
        let to = from + word_at(self.bytes, 8) as usize;
        &self.bytes[from..to]
    }
}
