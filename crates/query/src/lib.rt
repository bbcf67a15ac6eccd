// The query: the checks in the document's order, then the search.
#![tactic(auto)]

ghost use Rattle.std.specs.Prelude.{◌≡◌, ◌≤◌, length};
ghost use Rattle.search.specs.Search.{code_of};
ghost use Rattle.walk.specs.Carried.{answer_of};
ghost use Rattle.query.specs.Query.{checked, reply_of, outcome, values_of, witnessed, query_of};
ghost use Rattle.query.specs.Numbers.{numbers_of};
ghost use Rattle.query.specs.Promise.{Right, Bounded};

use prepare::prepare;
use prepare::ready::Ready;
use prepare::space::Space;
use reply::{Refusal, Reply};
use sheet::literal::Literal;
use walk::candidates::{Ending, Walked, walk_all};

pub mod reply;

/// Writes the values of the first atoms of a model, one for each byte.
fn write_values(model: u64, witness: &mut [u8])
    requires { length witness.old ≤ 64 }
    ensures { witness.new ≡ values_of (length witness.old) model }
{
    for (i, value) in witness.iter_mut().enumerate() {
        *value = u8::from(words::has(model, i as u8));
    }
}

/// The reply of a walk that has ended, and the witness on a yes: a byte for each atom.
fn finish(w: Walked, witness: &mut [u8]) -> Reply
    requires { length witness.old ≤ 64 }
    ensures reply { numbers_of (Ok result) ≡ reply_of (code_of (answer_of w.ending)) w.steps w.tests w.stored }
    ensures witness { witness.new ≡ witnessed (answer_of w.ending) (length witness.old) witness.old }
{
    if let Some(Ending::Affirmed(model)) = w.ending {
        write_values(model, witness);
    }
    Reply {
        verdict: w.ending.into(),
        steps: w.steps,
        tests: w.tests,
        stored: w.stored,
    }
}

/// A query of a sheet whose tables are ready: checks 16 and 17, then the search. It promises what `query` does.
pub fn ask(
    ready: Ready,
    question: u8,
    allowance: u64,
    store: &mut [u64],
    witness: &mut [u8],
) -> Result<Reply, Refusal>
    ensures defined { outcome (numbers_of result) store.new witness.new ≡ query_of ready.entry.sheet.bytes.now question allowance store.old witness.old }
    ensures right { Right (checked ready.entry.sheet.bytes.now question (length witness.old)) question allowance (length store.old) (numbers_of result) witness.old witness.new }
    ensures bounded { Bounded (checked ready.entry.sheet.bytes.now question (length witness.old)) question (length store.old) (numbers_of result) }
{
    let n = ready.sheet.atoms();
    let asked = Literal::read(question, n).ok_or(Refusal::NoLiteral)?;
    let atoms = usize::from(n);
    if witness.len() < atoms {
        return Err(Refusal::ShortWitness);
    }
    let walked = walk_all(ready.network(), asked, allowance, store);
    Ok(finish(walked, &mut witness[..atoms]))
}

/// A query: for every sheet, question, allowance, store and witness buffer. The first check that applies answers.
// What is lent for a question comes one by one, as C lends it and as the document lists it.
pub fn query(
    sheet: &[u8],
    question: u8,
    allowance: u64,
    store: &mut [u64],
    witness: &mut [u8],
) -> Result<Reply, Refusal>
    ensures defined { outcome (numbers_of result) store.new witness.new ≡ query_of sheet.now question allowance store.old witness.old }
    ensures right { Right (checked sheet.now question (length witness.old)) question allowance (length store.old) (numbers_of result) witness.old witness.new }
    ensures bounded { Bounded (checked sheet.now question (length witness.old)) question (length store.old) (numbers_of result) }
{
    let mut space = Space::new();
    let sizes = prepare(sheet, &mut space)?;
    let ready = space.ready(sheet, sizes);
    ask(ready, question, allowance, store, witness)
}
