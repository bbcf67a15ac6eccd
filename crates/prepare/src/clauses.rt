// The clauses of an accepted sheet, each as two sets of atoms: atom a is position a - 1.
ghost use Rattle.std.specs.Prelude.{◌≡◌, List, ◌∷◌, map, ◌≤◌, length};
ghost use Rattle.words.specs.Lists.{over};
ghost use Rattle.sheet.specs.Enums.{lit};
ghost use Rattle.sheet.specs.Literals.{Lit, literal};
ghost use Rattle.sheet.specs.Layout.{clause_count};
ghost use Rattle.sheet.specs.Reading.{sheet_of, Accepted};
ghost use Rattle.prepare.specs.Carried.{sets_of};

use sheet::bytes::Laid;
use sheet::literal::{Literal, LiteralBytes};

/// A set of literals, as a clause is one: the atoms that stand in it, and those that stand negated.
#[derive(Clone, Copy, Debug, Default, PartialEq, Eq)]
pub struct Literals {
    pub plains: u64,
    pub negated: u64,
}

impl Literals {
    /// The set with one literal more.
    pub fn with(self, l: Literal) -> Literals
        ensures { (ls : List Lit) → self ≡ sets_of ls → result ≡ sets_of (lit l ∷ ls) }
    {
        if l.plain {
            Literals {
                plains: words::adding(self.plains, l.place()),
                ..self
            }
        } else {
            Literals {
                negated: words::adding(self.negated, l.place()),
                ..self
            }
        }
    }
}

/// The clause of some literal bytes.
fn clause_of(bytes: LiteralBytes) -> Literals
    ensures { result ≡ sets_of (map literal bytes.entry.bytes.now) }
{
    let mut clause = Literals::default();
    for &b in bytes.bytes.iter().rev() {
        clause = clause.with(Literal::of(b));
    }
    clause
}

/// The two sets of each clause, into the first places of the lent pairs.
pub fn clauses_into(sheet: Laid, clauses: &mut [Literals])
    requires accepted { Accepted sheet.bytes.now }
    requires room { clause_count sheet.bytes.now ≤ length clauses.old }
    ensures { clauses.new ≡ over (map sets_of (sheet_of sheet.entry.bytes.now).clauses) clauses.old }
{
    let literals = sheet.literals();
    let mut start = 0;
    for (i, clause) in clauses[..sheet.clauses()].iter_mut().enumerate() {
        let end = sheet.clause_end(i);
        let bytes = &literals[start..end];
        *clause = clause_of(LiteralBytes { bytes });
        start = end;
    }
}
