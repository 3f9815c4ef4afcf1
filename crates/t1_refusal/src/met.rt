//! The glyph whose own run fails, among a glyph and the parts that it stands on.
ghost use Rattle.std.specs.Prelude.{◌≡◌, option_map, IfOk};
ghost use Rattle.t1_run.specs.Run.{font, own};
ghost use Rattle.t1_refusal.specs.Met.{failed, met_within};
ghost use Rattle.t1_chain.specs.GlyphFailures.{parts_found};
ghost use Rattle.t1_refusal.specs.Bodies.{seen_of};

use std::alloc::{AllocError, Global};
use t1_chain::{Failure, failure_of};
use t1_frac::{Bytes, Refusal};
use t1_run::{Composite, Meter, Segments, StoredBodies, run_of_body};

/// A glyph whose own run fails, and where.
#[derive(Drop)]
pub struct FailedRun {
    pub glyph: Bytes,
    pub failure: Failure,
}

/// Where the own run of a glyph fails.
fn failed<B: StoredBodies>(
    alloc: Global,
    bodies: &B,
    name: &[u8],
) -> Result<Option<FailedRun>, AllocError>
    ensures { IfOk result
        (λ found.
        option_map seen_of found
        ≡ failed (font (B.subrs bodies.now) (B.glyphs bodies.now)) name.now) }
{
    let Some(body) = bodies.glyph(name) else {
        return Ok(None);
    };
    let glyph = Bytes::copied(alloc, name)?;
    match failure_of(alloc, bodies, body)? {
        Some(failure) => Ok(Some(FailedRun { glyph, failure })),
        None => Ok(None),
    }
}

/// The parts that the own run of a glyph finds. This run isn't counted.
fn parts_of<B: StoredBodies>(
    alloc: Global,
    bodies: &B,
    name: &[u8],
) -> Result<Option<Composite>, AllocError>
    ensures { IfOk result
        (λ parts.
        parts ≡ parts_found (own (font (B.subrs bodies.now) (B.glyphs bodies.now)) name.now)) }
{
    let Some(body) = bodies.glyph(name) else {
        return Ok(None);
    };
    let mut meter = Meter::new();
    match run_of_body(alloc, bodies, body, Segments::new(alloc), &mut meter) {
        Ok(run) => {
            let (composite, _entered, _segments) = run.into_parts();
            Ok(composite)
        }
        Err(Refusal::Fault(_fault)) => Ok(None),
        Err(Refusal::Memory) => Err(AllocError),
    }
}

/// The first glyph whose own run fails, of a glyph and its parts, the base before the accent, which
/// nest so deep.
pub(crate) fn met_within<B: StoredBodies>(
    alloc: Global,
    bodies: &B,
    depth: u8,
    name: &[u8],
) -> Result<Option<FailedRun>, AllocError>
    ensures { IfOk result
        (λ met.
        option_map seen_of met
        ≡ met_within (font (B.subrs bodies.now) (B.glyphs bodies.now)) depth name.now) }
{
    if let Some(met) = failed(alloc, bodies, name)? {
        return Ok(Some(met));
    }
    if depth == 0 {
        return Ok(None);
    }
    let Some(parts) = parts_of(alloc, bodies, name)? else {
        return Ok(None);
    };
    if let Some(met) = met_within(alloc, bodies, depth - 1, parts.base.as_slice())? {
        return Ok(Some(met));
    }
    met_within(alloc, bodies, depth - 1, parts.accent.as_slice())
}
