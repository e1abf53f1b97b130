//! The pieces that leavers make.

ghost use Rattle.std.specs.Prelude.{Bool, List, IfOk};
ghost use Rattle.class_refine.specs.Leavers.{AreLeavers};
ghost use Rattle.class_refine.specs.Steps.{AreLeaving};

use crate::classes::Classes;
use crate::cutting::{Pieces, place_with};
use crate::leaver::Leaver;
use std::alloc::AllocError;
use std::collections::BTreeMap;

impl Classes {
    /// Returns the pieces that `leavers` make, by class and then by lowest member.
    pub(crate) fn pieces_of(
        &self,
        leavers: &[Leaver],
        positions: &[u32],
    ) -> Result<Pieces, AllocError>
        requires { (row : List (List Bool)) × AreLeavers self.now row leavers.now positions.now }
        ensures { IfOk result (λ pieces. (row : List (List Bool)) → AreLeavers self.now row leavers.now positions.now → AreLeaving self.now row pieces.groups.items pieces.parents.items) }
    {
        let alloc = *self.class_of.allocator();
        let mut begun: BTreeMap<(u32, &[u32]), usize> = BTreeMap::new(alloc);
        let mut pieces = Pieces {
            groups: Vec::new(alloc),
            parents: Vec::new(alloc),
        };
        for leaver in leavers {
            let class = self.class_of(leaver.number);
            let told = leaver.told(positions);
            let place = place_with(&mut begun, (class, told), pieces.groups.len())?;
            pieces.put(alloc, place, class, leaver.number)?;
        }
        Ok(pieces)
    }
}
