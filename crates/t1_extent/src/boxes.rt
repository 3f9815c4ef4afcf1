//! Boxes of outlines, and boxes that are moved.

ghost use Rattle.std.specs.Prelude.{◌≡◌, ◌≤◌, ◌^◌, ◌+ℤ◌, All};
ghost use Rattle.std.specs.Int.RustNames.{unsigned_abs};
ghost use Rattle.t1_run.specs.Composite.{IsWithin};
ghost use Rattle.t1_afm.specs.Box.{drawn_box};
ghost use Rattle.t1_extent.specs.Extremes.{IsWhole, moved_box as moved_box_of};

use t1_afm::{BBox, bounding_box};
use t1_run::{Point, Segment};

/// The box around what an outline draws, where it draws.
pub(crate) fn drawn_bbox(segments: &[Segment]) -> Option<BBox>
    requires { All IsWithin segments.now }
    ensures { result ≡ drawn_box segments.now }
{
    if segments.is_empty() {
        return None;
    }
    Some(bounding_box(segments))
}

/// A coordinate of a box, moved.
fn moved_side(side: i32, by: i64) -> i32
    requires { unsigned_abs (side +ℤ by) ≤ 2 ^ 29 }
    ensures { result ≡ side +ℤ by }
{
    (i64::from(side) + by) as i32
}

/// A box in whole numbers, moved by a whole distance: the box of the moved points, though the
/// points have fractions.
pub fn moved_box(bbox: &BBox, by: &Point) -> BBox
    requires whole { IsWhole by.now }
    requires left { unsigned_abs (bbox.now.left +ℤ by.now.x.num) ≤ 2 ^ 29 }
    requires bottom { unsigned_abs (bbox.now.bottom +ℤ by.now.y.num) ≤ 2 ^ 29 }
    requires right { unsigned_abs (bbox.now.right +ℤ by.now.x.num) ≤ 2 ^ 29 }
    requires top { unsigned_abs (bbox.now.top +ℤ by.now.y.num) ≤ 2 ^ 29 }
    ensures { result ≡ moved_box_of by.now bbox.now }
{
    let dx = by.x.num();
    let dy = by.y.num();
    BBox {
        left: moved_side(bbox.left, dx),
        bottom: moved_side(bbox.bottom, dy),
        right: moved_side(bbox.right, dx),
        top: moved_side(bbox.top, dy),
    }
}
