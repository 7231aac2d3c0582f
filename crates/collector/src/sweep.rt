// A pass over all blocks: the whole table is tested, and then each block has its turn, from 0 up.
ghost use Rattle.std.specs.Prelude.{◌≡◌, length};
ghost use Rattle.medium.specs.Geometry.{check_of};
ghost use Rattle.medium.specs.Operation.{run, ended};
ghost use Rattle.medium.specs.Beside.{both};
ghost use Rattle.collector.specs.Table.{HasRecord};
ghost use Rattle.collector.specs.Passes.{Step, pass};

use crate::table;
use blocks::record::BlockInfo;
use medium::fuse::{Fuse, Stored};
use medium::geometry::Geometry;

// One of the three passes. That the table has the block's record and that the geometry fits the image stand as conditions: a type that held both
// would hold two lent slices, and have to say in each contract that it still does.
pub(crate) trait Pass: Copy {
    // What it does to a block, as in the definitions.
    ghost step: { Step };

    // The same in code; info is the block's record.
    fn step(
        self,
        g: Geometry,
        image: &mut [u8],
        table: &mut [u32],
        f: Fuse,
        b: u32,
        info: BlockInfo,
    ) -> Stored
        requires has_record { HasRecord table.old b }
        requires image_value { check_of g (length image.old) ≡ 0 }
        ensures { ended result (both image.new table.new) ≡ run f (step g b info) (both image.old table.old) };
}

pub(crate) fn sweep<P: Pass>(
    p: P,
    g: Geometry,
    image: &mut [u8],
    table: &mut [u32],
    f: Fuse,
) -> Stored
    ensures { ended result (both image.new table.new) ≡ run f (pass P.step g) (both image.old table.old) }
{
    f.beside(table::check(g, image.len(), table))?;
    let mut fuse = f;
    for b in 0..g.count {
        let info = fuse.beside(table::record_at(table, b))?;
        fuse = p.step(g, image, table, fuse, b, info)?;
    }
    Ok(fuse)
}
