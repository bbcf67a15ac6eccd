// The check sheet of document 01: refused with its number, or understood as clauses and objectives.
#![tactic(auto)]

ghost use Rattle.std.specs.Prelude.{◌≡◌};
ghost use Rattle.sheet.specs.Reading.{read};
ghost use Rattle.sheet.specs.Enums.{check_of, numbered};

use bytes::{Laid, word_at};

pub mod bytes;
pub mod literal;
mod refusals;

/// Why a sheet is refused: the first check that applies.
#[derive(Clone, Copy, Debug, PartialEq, Eq)]
pub enum Refusal {
    Short = 10,
    OutOfRange = 11,
    Misplaced = 12,
    BadEnds = 13,
    BadLiteral = 14,
    BadObjective = 15,
}

/// The document's number of a refusal.
impl From<Refusal> for u8 {
    ghost use Rattle.sheet.specs.Enums.{number_of};

    ghost from_gives = { λ refusal n. n ≡ number_of refusal };

    fn from(refusal: Refusal) -> u8 {
        refusal as u8
    }
}

/// How many atoms, clauses and objectives an accepted sheet has.
#[derive(Clone, Copy, Debug, PartialEq, Eq)]
pub struct Sizes {
    pub atoms: u8,
    pub clauses: usize,
    pub objectives: usize,
}

/// The first check that applies answers, in the order of the document's table.
#[tactic(auto, using(crate::proofs::Understood::table_read), unfolding(crate::specs::Reading::read, crate::specs::Reading::table, crate::specs::Reading::short))]
pub fn check(s: &[u8]) -> Result<Sizes, Refusal>
    ensures { numbered result ≡ check_of (read s.now) }
{
    if s.len() < 32 {
        return Err(Refusal::Short);
    }
    if refusals::out_of_range(s) {
        return Err(Refusal::OutOfRange);
    }
    if refusals::misplaced(s) {
        return Err(Refusal::Misplaced);
    }
    let sheet = Laid { bytes: s };
    if refusals::bad_ends(sheet) {
        return Err(Refusal::BadEnds);
    }
    if refusals::bad_literal(sheet) {
        return Err(Refusal::BadLiteral);
    }
    if refusals::bad_objective(sheet) {
        return Err(Refusal::BadObjective);
    }
    Ok(Sizes {
        atoms: sheet.atoms(),
        clauses: sheet.clauses(),
        objectives: word_at(s, 8) as usize,
    })
}
