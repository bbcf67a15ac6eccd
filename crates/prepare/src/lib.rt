// A sheet made ready for a walk: its clauses as words, its objectives, its branch order.
#![tactic(auto)]

ghost use Rattle.std.specs.Prelude.{◌≡◌};
ghost use Rattle.sheet.specs.Enums.{check_of, numbered};
ghost use Rattle.sheet.specs.Reading.{read};
ghost use Rattle.prepare.specs.Carried.{clause_table, order_table};

use clauses::clauses_into;
use order::branch_order;
use sheet::bytes::Laid;
use sheet::{Refusal, Sizes};
use space::Space;

pub mod clauses;
pub mod network;
pub mod order;
pub mod ready;
pub mod space;

/// Checks a sheet and, where it is accepted, fills its tables: the two sets of each clause, and the branch order.
pub fn prepare(sheet: &[u8], space: &mut Space) -> Result<Sizes, Refusal>
    ensures checked { numbered result ≡ check_of (read sheet.now) }
    ensures clauses { space.new.clauses ≡ clause_table (read sheet.now) space.old.clauses }
    ensures order { space.new.order ≡ order_table (read sheet.now) space.old.order }
{
    let sizes = sheet::check(sheet)?;
    let accepted = Laid { bytes: sheet };
    clauses_into(accepted, &mut space.clauses);
    branch_order(accepted, &mut space.order);
    Ok(sizes)
}
