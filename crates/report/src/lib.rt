// The lines that are printed of a sheet, each put into a lent buffer: functions and no `Display`, for the reason that `text` gives, and each asks for the room
// that its own text can need.
#![tactic(auto)]

ghost use Rattle.std.specs.Prelude.{◌≡◌, Ok, ◌++◌, not, ◌+◌, ◌≤◌, ◌<◌, length};
ghost use Rattle.sheet.specs.Literals.{plain, atom};
ghost use Rattle.sheet.specs.Enums.{check_of, numbered, number_of, lit};
ghost use Rattle.sheet.specs.Reading.{read};
ghost use Rattle.text.specs.Text.{letters, decimal, signed_decimal, Puts, Adds};
ghost use Rattle.prepare.specs.Carried.{clause_table, order_table};
ghost use Rattle.query.specs.Numbers.{numbers_of, verdict_number};
ghost use Rattle.report.specs.Lines.{field, newline, heading as heading_of, verdict, counts, line as line_of, line_count, line_at};

use prepare::prepare;
use prepare::ready::Ready;
use prepare::space::Space;
use query::ask;
use query::reply::{Reply, Verdict};
use sheet::literal::Literal;
use sheet::{Refusal, Sizes};
use text::Text;

/// The first line of a sheet: how long it is, and what the check of the sheet answered.
// The length stands beside the lent bytes here and in `line`, since the promise is of all 128 of them: a part of them would say nothing of the rest.
#[derive(Clone, Copy, Debug, PartialEq, Eq)]
pub struct Opening {
    pub length: usize,
    pub checked: Result<Sizes, Refusal>,
}

/// A number as a field: at most 20 digits behind a blank.
#[tactic(auto, using(text::proofs::Decimals::twenty_digits))]
fn put_number(n: u64, out: &mut Text)
    requires { out.old.end + 21 ≤ length out.old.bytes.now }
    ensures adds { Adds (field (decimal n)) out.old out.new }
    ensures upper_bound { out.new.end ≤ out.old.end + 21 }
{
    out.put(b" ");
    out.put_decimal(n);
}

/// A literal as a field.
#[tactic(auto, using(text::proofs::Decimals::signed_digits))]
fn put_literal(l: Literal, out: &mut Text)
    requires { out.old.end + 22 ≤ length out.old.bytes.now }
    ensures adds { Adds (field (signed_decimal (not (plain (lit l))) (atom (lit l)))) out.old out.new }
    ensures upper_bound { out.new.end ≤ out.old.end + 22 }
{
    out.put(b" ");
    out.put_signed(!l.plain, u64::from(l.atom));
}

/// A verdict as a field.
fn put_verdict(answer: Verdict, out: &mut Text)
    requires { out.old.end + 21 ≤ length out.old.bytes.now }
    ensures adds { Adds (field (verdict (verdict_number answer))) out.old out.new }
    ensures upper_bound { out.new.end ≤ out.old.end + 21 }
{
    match answer {
        Verdict::Yes => out.put(b" yes"),
        Verdict::No => out.put(b" no"),
        _ => put_number(u64::from(u8::from(answer)), out),
    }
}

/// The line of a refused sheet.
fn put_refusal(refusal: Refusal, out: &mut Text)
    requires { out.old.end + 29 ≤ length out.old.bytes.now }
    ensures adds { Adds (letters "refused" ++ field (decimal (number_of refusal)) ++ newline) out.old out.new }
    ensures upper_bound { out.new.end ≤ out.old.end + 29 }
{
    out.put(b"refused");
    put_number(u64::from(u8::from(refusal)), out);
    out.put(b"\n");
}

/// The first line of an accepted sheet.
fn put_sizes(sizes: Sizes, out: &mut Text)
    requires { out.old.end + 69 ≤ length out.old.bytes.now }
    ensures adds { Adds (letters "sheet" ++ field (decimal sizes.atoms) ++ field (decimal sizes.clauses) ++ field (decimal sizes.objectives) ++ newline) out.old out.new }
    ensures upper_bound { out.new.end ≤ out.old.end + 69 }
{
    out.put(b"sheet");
    put_number(u64::from(sizes.atoms), out);
    put_number(sizes.clauses as u64, out);
    put_number(sizes.objectives as u64, out);
    out.put(b"\n");
}

/// The counts of a reply, to the line's end.
fn put_counts(reply: Reply, out: &mut Text)
    requires { out.old.end + 64 ≤ length out.old.bytes.now }
    ensures adds { Adds (counts (numbers_of (Ok reply))) out.old out.new }
    ensures upper_bound { out.new.end ≤ out.old.end + 64 }
{
    put_number(reply.steps, out);
    put_number(reply.tests, out);
    put_number(reply.stored as u64, out);
    out.put(b"\n");
}

/// The line of an objective, with what the query of its complement replied.
#[tactic(auto, using(text::proofs::Decimals::twenty_digits))]
fn put_line(i: usize, l: Literal, reply: Reply, out: &mut Text)
    requires { (i < 64) × (out.old.end + 127 ≤ length out.old.bytes.now) }
    ensures adds { Adds (line_of i (lit l) (numbers_of (Ok reply))) out.old out.new }
    ensures upper_bound { out.new.end ≤ out.old.end + 127 }
{
    out.put_decimal(i as u64 + 1);
    put_literal(l, out);
    put_verdict(reply.verdict, out);
    put_counts(reply, out);
}

/// Prepares a sheet and puts its first line, for every byte string.
pub fn heading(sheet: &[u8], space: &mut Space, out: &mut [u8; 128]) -> Opening
    ensures text { Puts (heading_of (read sheet.now)) 0 out.old out.new result.length }
    ensures checked { numbered result.checked ≡ check_of (read sheet.now) }
    ensures clauses { space.new.clauses ≡ clause_table (read sheet.now) space.old.clauses }
    ensures order { space.new.order ≡ order_table (read sheet.now) space.old.order }
    ensures fits { result.length ≤ length out.new }
{
    let checked = prepare(sheet, space);
    let mut text = Text { bytes: out, end: 0 };
    match checked {
        Ok(sizes) => put_sizes(sizes, &mut text),
        Err(refusal) => put_refusal(refusal, &mut text),
    }
    Opening {
        length: text.end,
        checked,
    }
}

/// Puts the line of the objective at position i of a sheet whose tables are ready, and answers how long it is.
pub fn line(ready: Ready, i: usize, out: &mut [u8; 128]) -> usize
    requires { i < line_count (read ready.sheet.bytes.now) }
    ensures text { Puts (line_at ready.entry.sheet.bytes.now i) 0 out.old out.new result }
    ensures fits { result ≤ length out.new }
{
    let objective = ready.objectives().at(i);
    let question = objective.complement().byte();
    let mut store = [0u64; 1024];
    let mut witness = [0u8; 64];
    // An objective's complement is a literal of the sheet, and 64 bytes are room for each of its atoms: it is not refused.
    let reply = ask(ready, question, 1000000, &mut store, &mut witness).unwrap();
    let mut text = Text { bytes: out, end: 0 };
    put_line(i, objective, reply, &mut text);
    text.end
}
