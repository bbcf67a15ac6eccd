// What a walk reads.
ghost use Rattle.std.specs.Prelude.{◌≤◌, length};

use crate::clauses::Literals;
use sheet::literal::LiteralBytes;

/// The branch order, the objectives and the clauses. An objective has a place in a word.
#[derive(Clone, Copy, Debug)]
pub struct Network<'a> {
    pub order: LiteralBytes<'a>,
    pub objectives: LiteralBytes<'a>,
    pub clauses: &'a [Literals],
    pub ghost few: { length objectives.bytes.now ≤ 64 },
}
