// The table of sums of a source.
ghost use Rattle.std.specs.Prelude.{◌≡◌};
ghost use Rattle.block_sums.specs.Tables.{HasShapeOf, IsTableOf};
ghost use Rattle.picture_planes.specs.Margins.{IsFilled};

use block_sums::SumTable;
use picture_planes::Plane;

/// Makes a table of sums that of a plane of its size and margin, whose margin is filled. Size and margin of the table stay.
pub fn fill_sums(sums: &mut SumTable, plane: &Plane)
    requires shape { HasShapeOf sums.old plane.now }
    requires filled { IsFilled plane.now }
    ensures table { IsTableOf sums.new plane.now }
    ensures width { sums.new.width ≡ sums.old.width }
    ensures height { sums.new.height ≡ sums.old.height }
    ensures pad { sums.new.pad ≡ sums.old.pad }
{
    sums.fill(plane);
}
