// The branch order of an accepted sheet.
ghost use Rattle.std.specs.Prelude.{◌≡◌, [], ◌∷◌, map, ◌+◌, ◌≤◌, ◌<◌, length};
ghost use Rattle.words.specs.Lists.{over};
ghost use Rattle.sheet.specs.Enums.{lit};
ghost use Rattle.sheet.specs.Layout.{atom_count};
ghost use Rattle.sheet.specs.Literals.{pos, literal, byte_of};
ghost use Rattle.sheet.specs.Reading.{sheet_of, Accepted};
ghost use Rattle.sheet.specs.Order.{branch, up_to};
ghost use Rattle.prepare.specs.Carried.{Grown};

use sheet::bytes::Laid;
use sheet::literal::{Literal, LiteralBytes};

/// The order so far: the literal bytes in front of the lent ones, how many they are, and the atoms that they name. Nothing is allocated.
#[derive(Debug, Drop)]
pub struct Order<'a> {
    pub bytes: &'a mut [u8],
    pub count: usize,
    pub atoms: u64,
}

impl Order<'_> {
    /// Puts a literal at the end, unless its atom is named already.
    fn take(&mut self, l: Literal)
        requires { self.old.count < length self.old.bytes.now }
        ensures grown { Grown (lit l ∷ []) self.old self.new }
        ensures room { self.new.count ≤ self.old.count + 1 }
    {
        if words::has(self.atoms, l.place()) {
            return;
        }
        self.bytes[self.count] = l.byte();
        self.count += 1;
        self.atoms = words::adding(self.atoms, l.place());
    }

    /// Goes on with some literals.
    fn take_all(&mut self, literals: LiteralBytes)
        requires { self.old.count + length literals.bytes.now ≤ length self.old.bytes.now }
        ensures grown { Grown (map literal literals.entry.bytes.now) self.old self.new }
        ensures room { self.new.count ≤ self.old.count + length literals.entry.bytes.now }
    {
        for &b in literals.bytes {
            self.take(Literal::of(b));
        }
    }

    /// Goes on with the atoms of the sheet.
    fn take_atoms(&mut self, sheet: Laid)
        requires { self.old.count + atom_count sheet.bytes.now ≤ length self.old.bytes.now }
        ensures { Grown (map pos (up_to (atom_count sheet.entry.bytes.now))) self.old self.new }
    {
        for atom in 1..=sheet.atoms() {
            self.take(Literal { plain: true, atom });
        }
    }
}

/// The branch order of an accepted sheet, a literal byte for each atom, into the first places of the lent bytes.
pub fn branch_order(sheet: Laid, order: &mut [u8])
    requires accepted { Accepted sheet.bytes.now }
    requires room { 128 ≤ length order.old }
    ensures { order.new ≡ over (map byte_of (branch (sheet_of sheet.entry.bytes.now))) order.old }
{
    let bytes = sheet.objectives();
    let mut begun = Order {
        bytes: order,
        count: 0,
        atoms: 0,
    };
    begun.take_all(LiteralBytes { bytes });
    begun.take_atoms(sheet);
}
