// The core for programs in other languages: the C interface, so an answer is a number, and counts go into lent words. A slice is passed as a pointer and then a
// length, an array as a pointer.
#![tactic(auto)]

ghost use Rattle.std.specs.Prelude.{◌≡◌, length};
ghost use Rattle.sheet.specs.Reading.{read};
ghost use Rattle.query.specs.Query.{checked, query_of};
ghost use Rattle.query.specs.Promise.{Right, Bounded};
ghost use Rattle.jarvulpe.specs.Boundary.{check_code, sizes_of, counts_of, reply_in};

/// The check of a sheet: 10 to 15 where it is refused; else 0, with the numbers of atoms, clauses and objectives in `sizes`.
#[unsafe(no_mangle)]
pub extern "C" fn jarvulpe_check(sheet: &[u8], sizes: &mut [u32; 3]) -> u8
    ensures { (result ≡ check_code (read sheet.now)) × (sizes.new ≡ sizes_of (read sheet.now) sizes.old) }
{
    match sheet::check(sheet) {
        Ok(found) => {
            *sizes = [
                u32::from(found.atoms),
                found.clauses as u32,
                found.objectives as u32,
            ];
            0
        }
        Err(refusal) => refusal.into(),
    }
}

/// A query: its code, with the counts of steps, tests and stored parts in `counts`. On a yes the witness buffer holds the model; the stored
/// parts stand in the first places of the store.
#[unsafe(no_mangle)]
pub extern "C" fn jarvulpe_query(
    sheet: &[u8],
    question: u8,
    allowance: u64,
    store: &mut [u64],
    witness: &mut [u8],
    counts: &mut [u64; 3],
) -> u8
    ensures code { result ≡ (query_of sheet.now question allowance store.old witness.old).reply.code }
    ensures counts { counts.new ≡ counts_of (query_of sheet.now question allowance store.old witness.old).reply }
    ensures store { store.new ≡ (query_of sheet.now question allowance store.old witness.old).store }
    ensures witness { witness.new ≡ (query_of sheet.now question allowance store.old witness.old).witness }
    ensures right { Right (checked sheet.now question (length witness.old)) question allowance (length store.old) (reply_in result counts.new) witness.old witness.new }
    ensures bounded { Bounded (checked sheet.now question (length witness.old)) question (length store.old) (reply_in result counts.new) }
{
    match query::query(sheet, question, allowance, store, witness) {
        Ok(reply) => {
            *counts = [reply.steps, reply.tests, reply.stored as u64];
            reply.verdict.into()
        }
        Err(refusal) => {
            *counts = [0; 3];
            refusal.into()
        }
    }
}
