// An accepted sheet and its tables.
ghost use Rattle.std.specs.Prelude.{◌≡◌};
ghost use Rattle.sheet.specs.Layout.{objective_bytes};
ghost use Rattle.prepare.specs.Carried.{Tables};

use crate::clauses::Literals;
use crate::network::Network;
use sheet::bytes::Laid;
use sheet::literal::LiteralBytes;

/// An accepted sheet with its branch order and its clauses.
#[derive(Clone, Copy, Debug)]
pub struct Ready<'a> {
    pub sheet: Laid<'a>,
    pub order: &'a [u8],
    pub clauses: &'a [Literals],
    pub ghost tables: { Tables sheet.bytes.now order.now clauses.now },
}

impl<'a> Ready<'a> {
    /// The literals of its objectives.
    pub fn objectives(self) -> LiteralBytes<'a>
        ensures { result.bytes.now ≡ objective_bytes self.entry.sheet.bytes.now }
    {
        LiteralBytes {
            bytes: self.sheet.objectives(),
        }
    }

    /// What a walk of the sheet reads.
    pub fn network(self) -> Network<'a>
        ensures order { result.order.bytes.now ≡ self.entry.order.now }
        ensures objectives { result.objectives.bytes.now ≡ objective_bytes self.entry.sheet.bytes.now }
        ensures clauses { result.clauses.now ≡ self.entry.clauses.now }
    {
        Network {
            order: LiteralBytes { bytes: self.order },
            objectives: self.objectives(),
            clauses: self.clauses,
        }
    }
}
