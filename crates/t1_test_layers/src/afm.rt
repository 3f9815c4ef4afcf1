//! The box of a moved outline.

use t1_afm::{BBox, measure};
use t1_frac::Frac;
use t1_run::{Point, Segment, moved_segment};

/// A point, with so many quarters as its x.
fn point(quarters: i32, y: i32) -> Option<Point> {
    let x = Frac::whole(quarters).div(&Frac::whole(4)).ok()?;
    Some(Point {
        x,
        y: Frac::whole(y),
    })
}

fn moved_box(segment: Segment, by: &Point) -> Option<BBox> {
    match moved_segment(&segment, by) {
        Ok(_) => Some(measure(&[segment], by)),
        Err(_) => None,
    }
}

/// A line from 93 1/4, 500 to 193 1/4, 678, measured where it is moved by 87 1/2, 214.
fn moved_accent() -> Option<BBox> {
    let start = point(373, 500)?;
    let end = point(773, 678)?;
    let by = point(350, 214)?;
    moved_box(Segment::Line(start, end), &by)
}

/// Its left, bottom, right and top.
fn moved_sides() -> Option<[i32; 4]> {
    let bbox = moved_accent()?;
    Some([bbox.left, bbox.bottom, bbox.right, bbox.top])
}

#[test]
fn rounds_after_the_move(rt: HostRuntime) {
    assert!(rt; moved_sides() == Some([180, 714, 281, 892]));
}
