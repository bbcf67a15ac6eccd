// Room that is lent for the tables of a sheet.
ghost use Rattle.std.specs.Prelude.{◌≡◌, ◌≤◌, take, replicate};
ghost use Rattle.prepare.specs.Carried.{Tables, empty_sets};

use crate::clauses::Literals;
use crate::ready::Ready;
use sheet::Sizes;
use sheet::bytes::Laid;

/// Room for the tables of a sheet: the two sets of each clause, and the branch order.
#[derive(Debug, Drop)]
pub struct Space {
    pub clauses: [Literals; 1024],
    pub order: [u8; 128],
}

impl Space {
    /// Room in which nothing stands yet.
    pub fn new() -> Space
        ensures clauses { result.clauses ≡ replicate 1024 empty_sets }
        ensures order { result.order ≡ replicate 128 0 }
    {
        Space {
            clauses: [Literals::default(); 1024],
            order: [0; 128],
        }
    }

    /// An accepted sheet with its tables, which stand in the first places.
    pub fn ready<'a>(&'a self, sheet: &'a [u8], sizes: Sizes) -> Ready<'a>
        requires room { (sizes.clauses ≤ 1024) × (sizes.atoms ≤ 128) }
        requires tables { Tables sheet.now (take sizes.atoms self.now.order) (take sizes.clauses self.now.clauses) }
        ensures sheet { result.sheet.bytes.now ≡ sheet.now }
        ensures order { result.order.now ≡ take sizes.atoms self.now.order }
        ensures clauses { result.clauses.now ≡ take sizes.clauses self.now.clauses }
    {
        Ready {
            sheet: Laid { bytes: sheet },
            order: &self.order[..usize::from(sizes.atoms)],
            clauses: &self.clauses[..sizes.clauses],
        }
    }
}
