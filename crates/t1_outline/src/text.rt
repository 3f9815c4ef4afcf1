//! The text of an outline: a line for each segment, and one for each move.

ghost use Rattle.std.specs.Prelude.{◌≡◌, ◌∷◌, [], ◌++◌, flat_map, IfOk, OnOk};
ghost use Rattle.t1_frac.specs.Ascii.{line_feed};
ghost use Rattle.t1_text.specs.Lines.{joined};
ghost use Rattle.t1_outline.specs.Text.{coordinate_text, point_text, outline_line};
ghost use Rattle.t1_outline.specs.Text.{start_of as start, end_of as end};
ghost use Rattle.t1_outline.specs.Text.{is_same_point, segment_goes_on as goes_on_of};
ghost use Rattle.t1_outline.specs.Text.{move_lines, drawn_line, segment_lines, outline_text};

use itoa::Buffer;
use std::alloc::{AllocError, Global};
use t1_frac::Frac;
use t1_run::{Point, Segment};

/// Adds a coordinate, as `5` or `5/2`.
fn push_coordinate(text: &mut Vec<u8>, coordinate: &Frac) -> Result<(), AllocError>
    ensures { OnOk result (text.new.items ≡ text.old.items ++ coordinate_text coordinate.now) }
{
    let mut buffer = Buffer::new();
    text.extend_from_slice(buffer.format(coordinate.num()).as_bytes())?;
    if coordinate.is_whole() {
        return Ok(());
    }
    text.push(b'/')?;
    text.extend_from_slice(buffer.format(coordinate.den()).as_bytes())?;
    Ok(())
}

/// Adds ` X Y`.
fn push_point(text: &mut Vec<u8>, point: &Point) -> Result<(), AllocError>
    ensures { OnOk result (text.new.items ≡ text.old.items ++ point_text point.now) }
{
    text.push(b' ')?;
    push_coordinate(text, &point.x)?;
    text.push(b' ')?;
    push_coordinate(text, &point.y)?;
    Ok(())
}

/// Adds the points of a line.
fn push_points(text: &mut Vec<u8>, points: &[Point]) -> Result<(), AllocError>
    ensures { OnOk result (text.new.items ≡ text.old.items ++ flat_map point_text points.now) }
{
    for point in points {
        push_point(text, point)?;
    }
    Ok(())
}

/// Adds a line: its letter, its points, and its end.
fn push_line(text: &mut Vec<u8>, letter: &[u8], points: &[Point]) -> Result<(), AllocError>
    ensures { OnOk result
        (text.new.items ≡ text.old.items ++ joined (outline_line letter.now points.now ∷ [])) }
{
    text.extend_from_slice(letter)?;
    push_points(text, points)?;
    text.push(b'\n')?;
    Ok(())
}

/// The point at which a segment begins.
fn start_of(segment: &Segment) -> Point
    ensures { result ≡ start segment.now }
{
    match segment {
        Segment::Line(start, _) => *start,
        Segment::Curve(start, _, _, _) => *start,
    }
}

/// The point at which a segment ends.
fn end_of(segment: &Segment) -> Point
    ensures { result ≡ end segment.now }
{
    match segment {
        Segment::Line(_, end) => *end,
        Segment::Curve(_, _, _, end) => *end,
    }
}

/// Whether both are the same point.
fn is_same(point: &Point, other: &Point) -> bool
    ensures { result ≡ is_same_point point.now other.now }
{
    point.x.cmp(&other.x).is_eq() && point.y.cmp(&other.y).is_eq()
}

/// Whether a segment that begins here goes on where the last one ended.
fn goes_on(ended: Option<Point>, start: &Point) -> bool
    ensures { result ≡ goes_on_of ended start.now }
{
    match ended {
        None => false,
        Some(ended) => is_same(&ended, start),
    }
}

/// Adds `M X Y` where a segment doesn't begin where the last one ended.
fn push_move(text: &mut Vec<u8>, ended: Option<Point>, start: Point) -> Result<(), AllocError>
    ensures { OnOk result (text.new.items ≡ text.old.items ++ joined (move_lines ended start)) }
{
    if goes_on(ended, &start) {
        return Ok(());
    }
    push_line(text, b"M", &[start])
}

/// Adds `L X Y` or `C X Y X Y X Y`.
fn push_drawn(text: &mut Vec<u8>, segment: &Segment) -> Result<(), AllocError>
    ensures { OnOk result
        (text.new.items ≡ text.old.items ++ joined (drawn_line segment.now ∷ [])) }
{
    match segment {
        Segment::Line(_, end) => push_line(text, b"L", &[*end]),
        Segment::Curve(_, first, second, end) => push_line(text, b"C", &[*first, *second, *end]),
    }
}

/// Adds the lines of a segment, after one that ended there.
fn push_segment(
    text: &mut Vec<u8>,
    ended: Option<Point>,
    segment: &Segment,
) -> Result<(), AllocError>
    ensures { OnOk result
        (text.new.items ≡ text.old.items ++ joined (segment_lines ended segment.now)) }
{
    push_move(text, ended, start_of(segment))?;
    push_drawn(text, segment)
}

/// The text of an outline, each line with LF, its coordinates exact in character space units, as
/// `5` or `5/2`: `M X Y` where a segment doesn't begin where the last one ended, `L X Y` for a
/// line, and `C X Y X Y X Y` for a curve. Nothing where nothing is drawn.
pub fn outline_text(alloc: Global, segments: &[Segment]) -> Result<Vec<u8>, AllocError>
    ensures { IfOk result (λ text. text.items ≡ outline_text segments.now) }
{
    let mut text = Vec::new(alloc);
    let mut ended = None;
    for segment in segments {
        push_segment(&mut text, ended, segment)?;
        ended = Some(end_of(segment));
    }
    Ok(text)
}
