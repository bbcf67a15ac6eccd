// The checks of a sheet after its length, one function for each row of the document's table.
ghost use Rattle.std.specs.Prelude.{◌≡◌, ◌≤◌, length};
ghost use Rattle.words.specs.Lists.{any};
ghost use Rattle.sheet.specs.Layout.{atom_count, objective_bytes};
ghost use Rattle.sheet.specs.Reading.{out_of_range, misplaced as is_misplaced, bad_ends, no_literal, bad_literal, bad_objective};
ghost use Rattle.sheet.specs.Passed.{Counted};

use crate::bytes::{Laid, word_at};
use crate::literal::is_literal;

/// 11: whether one of words 0 to 3 is out of range.
#[tactic(auto, unfolding(crate::specs::Reading::out_of_range))]
pub fn out_of_range(s: &[u8]) -> bool
    requires { 32 ≤ length s.now }
    ensures { result ≡ out_of_range s.now }
{
    let n = word_at(s, 0);
    n < 1 || 64 < n || 1024 < word_at(s, 4) || 64 < word_at(s, 8) || 8192 < word_at(s, 12)
}

/// 12: whether one of words 4 to 7 is not what words 1 to 3 make it, or the length is not word 7.
#[tactic(auto, unfolding(crate::specs::Reading::misplaced))]
pub fn misplaced(s: &[u8]) -> bool
    requires { Counted s.now }
    ensures { result ≡ is_misplaced s.now }
{
    let literals_at = 32 + 4 * word_at(s, 4);
    let objectives_at = literals_at + word_at(s, 12);
    let total = objectives_at + word_at(s, 8);
    word_at(s, 16) != 32
        || word_at(s, 20) != literals_at
        || word_at(s, 24) != objectives_at
        || word_at(s, 28) != total
        || s.len() != total as usize
}

/// 13: whether the clause ends fall, or the last one is not the number of literals.
pub fn bad_ends(sheet: Laid) -> bool
    ensures { result ≡ bad_ends sheet.entry.bytes.now }
{
    let mut start = 0;
    for i in 0..sheet.clauses() {
        let end = sheet.clause_end(i);
        if end < start {
            return true;
        }
        start = end;
    }
    start != word_at(sheet.bytes, 12) as usize
}

/// 14: whether some clause byte is no literal.
#[tactic(auto, unfolding(crate::specs::Reading::bad_literal))]
pub fn bad_literal(sheet: Laid) -> bool
    ensures { result ≡ bad_literal sheet.entry.bytes.now }
{
    let n = sheet.atoms();
    let bytes = sheet.literals();
    bytes.iter().any(|&b| !is_literal(b, n))
}

/// 15: whether some objective byte is no literal, or stands twice.
// Loops over the pairs, left by a label at the first such byte: the form that the document names for this place.
pub fn bad_objective(sheet: Laid) -> bool
    ensures { result ≡ bad_objective (atom_count sheet.entry.bytes.now) (objective_bytes sheet.entry.bytes.now) }
{
    let n = sheet.atoms();
    let bytes = sheet.objectives();
    let mut bad = false;
    'all: for (i, &b) in bytes.iter().enumerate() {
        if !is_literal(b, n) {
            bad = true;
            break 'all;
        }
        for &earlier in &bytes[..i] {
            if earlier == b {
                bad = true;
                break 'all;
            }
        }
    }
    bad
}
