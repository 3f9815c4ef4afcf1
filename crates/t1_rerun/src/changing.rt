//! Changes of some entries of a source prepared: the glyphs that they make stale are run by the
//! bodies of the records under the changes, and all growths that the records will take are made.
ghost use Rattle.std.specs.Prelude.{◌≡◌, ◌≤◌, ◌&&◌, ◌∷◌, [], ℕ, true, IfOk, List, None, OnOk, Some};
ghost use Rattle.std.specs.Prelude.{if◌then◌else◌, length, map, nat_eq};
ghost use Rattle.std.specs.List.{AllByRecursion, list_any};
ghost use Rattle.std.specs.Option.{option_copied, option_or};
ghost use Rattle.std.specs.Str.{bytes_eq};
ghost use Rattle.indexmap.specs.IndexMap.{spare};
ghost use Rattle.t1_frac.specs.Outcome.{Gives};
ghost use Rattle.t1_parts.specs.SourceParts.{SourceParts};
ghost use Rattle.t1_run.specs.Overlay.{after_change};
ghost use Rattle.t1_run.specs.Run.{font, Glyph, Key, Subr};
ghost use Rattle.t1_run.specs.RunKeys.{body_at};
ghost use Rattle.t1_run.specs.Touched.{is_user};
ghost use Rattle.t1_font.specs.Runs.{drawing_in, Counts};
ghost use Rattle.t1_font.specs.SourceChecks.{source_check};
ghost use Rattle.t1_cache.specs.Bodies.{record_bodies};
ghost use Rattle.t1_cache.specs.Changed.{AreSameRecords};
ghost use Rattle.t1_cache.specs.Edited.{stale};
ghost use Rattle.t1_cache.specs.Kept.{keep_traces};
ghost use Rattle.t1_cache.specs.Renewed.{recorded_run};
ghost use Rattle.t1_cache.specs.Users.{has_pair, is_name_among};
ghost use Rattle.t1_font.specs.OwnedKeys.{key_of};
ghost use Rattle.t1_rerun.specs.Changing.{body_changed, edited_font, glyph_set, subr_set};
ghost use Rattle.t1_rerun.specs.Changing.{AreChangesOf, IsReadyFor, MayBePrepared};
ghost use Rattle.t1_rerun.specs.Renewals.{rerun_names, HasRun, IsLater, IsMeasuredRerun};
ghost use Rattle.t1_rerun.specs.Renewals.{IsRenewal};
ghost use Rattle.t1_rerun.specs.Right.{IsEdit};
ghost use Rattle.t1_rerun.specs.Settled.{changed_keys, AreAsBefore, AreDistinctKeys, IsReady};

mod preparing;

use crate::entry_change::EntryChange;
use crate::judging::rerun_found;
use crate::order::GlyphOrder;
use crate::reruns::reruns_of;
use crate::settling::Ready;
use indexmap::IndexMap;
use preparing::{runs_by_name, steps_with_room, taken_out};
use std::alloc::{AllocError, Global};
use t1_cache::{Records, Rerun, found, joins_of, leaves_of, make_room};
use t1_code::{Body, Command};
use t1_font::{GlyphMetrics, OwnedKey, Runs};
use t1_frac::Refusal;
use t1_run::{Bodies, Meter, StoredBodies};

/// The bodies of records, with those that changes set or take out. Each is asked for by one look-up
/// among the changes and at most one among the records.
#[derive(Drop)]
pub struct EditedBodies<'a> {
    records: &'a Records,
    subrs: IndexMap<u16, &'a Option<Body>>,
    glyphs: IndexMap<&'a [u8], &'a Option<Body>>,
}

/// What is set, or taken out, at a Subr.
fn subr_in<'a>(subrs: &IndexMap<u16, &'a Option<Body>>, number: u16) -> Option<&'a Option<Body>>
    ensures { option_copied result ≡ subr_set subrs.now.entries number }
{
    subrs.get(&number).copied()
}

/// What is set, or taken out, at a glyph.
fn glyph_in<'a>(
    glyphs: &IndexMap<&'a [u8], &'a Option<Body>>,
    name: &[u8],
) -> Option<&'a Option<Body>>
    ensures { option_copied result ≡ glyph_set glyphs.now.entries name.now }
{
    glyphs.get(name).copied()
}

/// The commands of a body that is set.
fn commands_of(body: &Option<Body>) -> Option<&[Command]>
    ensures { option_copied result ≡ body.now }
{
    match body {
        None => None,
        Some(body) => Some(body.commands()),
    }
}

impl<'a> Bodies for EditedBodies<'a> {
    ghost use Rattle.t1_run.specs.Overlay.{after_change};
    ghost use Rattle.t1_cache.specs.Bodies.{glyph_body, subr_body};
    ghost use Rattle.t1_rerun.specs.Changing.{glyph_set, subr_set};

    ghost subrs = { λ e n.
        after_change (subr_set e.subrs.entries n) (subr_body e.records.now.subrs.entries n) };

    ghost glyphs = { λ e name.
        after_change (glyph_set e.glyphs.entries name)
        (glyph_body e.records.now.glyphs.entries name) };

    fn subr(&self, n: u16) -> Option<&[Command]> {
        match subr_in(&self.subrs, n) {
            None => self.records.subr(n),
            Some(body) => commands_of(body),
        }
    }

    fn has_glyph(&self, name: &[u8]) -> bool {
        match glyph_in(&self.glyphs, name) {
            None => self.records.has_glyph(name),
            Some(body) => body.is_some(),
        }
    }
}

impl<'a> StoredBodies for EditedBodies<'a> {
    fn glyph(&self, name: &[u8]) -> Option<&[Command]> {
        match glyph_in(&self.glyphs, name) {
            None => self.records.glyph(name),
            Some(body) => commands_of(body),
        }
    }
}

/// Sets a body at a Subr, or takes it out, where nothing was set there.
fn set_subr<'a>(
    subrs: &mut IndexMap<u16, &'a Option<Body>>,
    number: u16,
    body: &'a Option<Body>,
) -> Result<(), AllocError>
    ensures { OnOk result
        ((n : ℕ)
        → subr_set subrs.new.entries n
        ≡ option_or (subr_set subrs.old.entries n)
        (if nat_eq n number then Some body.now else None)) }
{
    if subrs.contains_key(&number) {
        return Ok(());
    }
    subrs.insert(number, body)?;
    Ok(())
}

/// Sets a body at a glyph, or takes it out, where nothing was set there.
fn set_glyph<'a>(
    glyphs: &mut IndexMap<&'a [u8], &'a Option<Body>>,
    name: &'a [u8],
    body: &'a Option<Body>,
) -> Result<(), AllocError>
    ensures { OnOk result
        ((g : List ℕ)
        → glyph_set glyphs.new.entries g
        ≡ option_or (glyph_set glyphs.old.entries g)
        (if bytes_eq g name.now then Some body.now else None)) }
{
    if glyphs.contains_key(name) {
        return Ok(());
    }
    glyphs.insert(name, body)?;
    Ok(())
}

/// Sets the body of a change at its entry, or takes it out, where nothing was set there.
fn set_body<'a>(
    subrs: &mut IndexMap<u16, &'a Option<Body>>,
    glyphs: &mut IndexMap<&'a [u8], &'a Option<Body>>,
    change: &'a EntryChange,
) -> Result<(), AllocError>
    ensures subrs { OnOk result
        ((n : ℕ)
        → subr_set subrs.new.entries n
        ≡ option_or (subr_set subrs.old.entries n) (body_changed (change.now ∷ []) (Subr n))) }
    ensures glyphs { OnOk result
        ((g : List ℕ)
        → glyph_set glyphs.new.entries g
        ≡ option_or (glyph_set glyphs.old.entries g)
        (body_changed (change.now ∷ []) (Glyph g))) }
{
    match &change.named {
        OwnedKey::Subr(number) => set_subr(subrs, *number, &change.body),
        OwnedKey::Glyph(name) => set_glyph(glyphs, name.as_slice(), &change.body),
    }
}

/// The bodies of records under these changes. Of several changes of an entry the first counts.
pub fn edited_bodies<'a>(
    alloc: Global,
    records: &'a Records,
    changes: &'a [EntryChange],
) -> Result<EditedBodies<'a>, AllocError>
    ensures { IfOk result
        (λ bodies.
        (k : Key)
        → body_at (edited_font bodies) k
        ≡ after_change (body_changed changes.now k)
        (body_at (record_bodies records.now) k)) }
{
    let mut subrs = IndexMap::new(alloc);
    let mut glyphs = IndexMap::new(alloc);
    for change in changes {
        set_body(&mut subrs, &mut glyphs, change)?;
    }
    Ok(EditedBodies {
        records,
        subrs,
        glyphs,
    })
}

/// What edits make new of the glyphs that they make stale: their runs and boxes, and which of them
/// leave and join the users of Subrs and glyphs, each with its user.
#[derive(Drop)]
pub struct Renewal {
    pub reruns: Vec<Rerun>,
    pub leaves: Vec<(OwnedKey, Vec<u8>)>,
    pub joins: Vec<(OwnedKey, Vec<u8>)>,
}

/// The entries that changes name, in their order.
fn named_in(alloc: Global, changes: &[EntryChange]) -> Result<Vec<OwnedKey>, AllocError>
    ensures { IfOk result (λ named. map key_of named.items ≡ changed_keys changes.now) }
{
    let mut named = Vec::new(alloc);
    for change in changes {
        named.push(change.named.copied(alloc)?)?;
    }
    Ok(named)
}

/// Runs the glyphs that edits make stale, each once, and measures them by the newest runs: what is
/// new of the edited font, or its first fault. The bodies and the order of the glyphs are those of
/// the edited font; the order is asked for only where a glyph has a fault. The meter counts each
/// run.
pub fn rerun<B: StoredBodies, O: GlyphOrder>(
    alloc: Global,
    records: &Records,
    bodies: &B,
    order: &O,
    edits: &[OwnedKey],
    meter: &mut Meter,
) -> Result<Renewal, Refusal>
    requires { keep_traces records.now ≡ true }
    ensures checked { (old new : SourceParts)
        → IsEdit edits.now old new records.now (font (B.subrs bodies.now) (B.glyphs bodies.now))
        (O.ordered order.now)
        → Gives (λ _. tt) result (source_check new) }
    ensures renewal { (old new : SourceParts)
        → IsEdit edits.now old new records.now (font (B.subrs bodies.now) (B.glyphs bodies.now))
        (O.ordered order.now)
        → IfOk result (IsRenewal (map key_of edits.now) old new) }
    ensures later { IfOk result
        (λ renewal. AllByRecursion (IsLater meter.old) renewal.reruns.items) }
    ensures counted { (old new : SourceParts)
        → IsEdit edits.now old new records.now (font (B.subrs bodies.now) (B.glyphs bodies.now))
        (O.ordered order.now)
        → Counts (length (stale old (map key_of edits.now) new)) meter.old meter.new result }
{
    let found = found(alloc, records, edits)?;
    rerun_found(alloc, records, bodies, order, edits, &found, meter)
}

/// Runs the glyphs that changes make stale, each once, by the bodies of the records under the
/// changes: what is new of the edited font, or its first fault.
fn rerun_changed<O: GlyphOrder>(
    alloc: Global,
    records: &Records,
    changes: &[EntryChange],
    order: &O,
    meter: &mut Meter,
) -> Result<Renewal, Refusal>
    requires { keep_traces records.now ≡ true }
    ensures checked { (old new : SourceParts)
        → AreChangesOf changes.now old new records.now (O.ordered order.now)
        → Gives (λ _. tt) result (source_check new) }
    ensures renewal { (old new : SourceParts)
        → AreChangesOf changes.now old new records.now (O.ordered order.now)
        → IfOk result (IsRenewal (changed_keys changes.now) old new) }
    ensures later { IfOk result
        (λ renewal. AllByRecursion (IsLater meter.old) renewal.reruns.items) }
    ensures counted { (old new : SourceParts)
        → AreChangesOf changes.now old new records.now (O.ordered order.now)
        → Counts (length (stale old (changed_keys changes.now) new)) meter.old meter.new result }
{
    let named = named_in(alloc, changes)?;
    let bodies = edited_bodies(alloc, records, changes)?;
    rerun(alloc, records, &bodies, order, &named, meter)
}

/// What is new of the glyphs that were found: the runs and boxes of those that were measured, and
/// the users that the glyphs leave by the records and join by the runs. The runs of the former are
/// taken out.
pub fn renewal_of(
    alloc: Global,
    records: &Records,
    found: &[&[u8]],
    stale: &[&[u8]],
    runs: &mut Runs,
    metrics: &[GlyphMetrics],
) -> Result<Renewal, AllocError>
    requires { AllByRecursion (HasRun runs.old) metrics.now }
    ensures each { IfOk result
        (λ renewal.
        AllByRecursion (IsMeasuredRerun runs.old metrics.now) renewal.reruns.items) }
    ensures names { IfOk result
        (λ renewal.
        (g : List ℕ)
        → list_any (bytes_eq g) (rerun_names renewal.reruns.items)
        ≡ list_any (λ m. bytes_eq g m.name) metrics.now) }
    ensures leaves { IfOk result
        (λ renewal.
        (k : Key) (u : List ℕ)
        → has_pair renewal.leaves.items k u
        ≡ (is_name_among (λ name. name.now) found.now u && is_user k
        (recorded_run records.now u))) }
    ensures joins { IfOk result
        (λ renewal.
        (k : Key) (u : List ℕ)
        → has_pair renewal.joins.items k u
        ≡ (is_name_among (λ name. name.now) stale.now u && is_user k
        (drawing_in runs.old u))) }
{
    let leaves = leaves_of(alloc, records, found)?;
    let joins = joins_of(alloc, runs, stale)?;
    let reruns = reruns_of(alloc, runs, metrics)?;
    Ok(Renewal {
        reruns,
        leaves,
        joins,
    })
}

/// Makes room for so many more Subrs and so many more glyphs.
fn reserve_entries(records: &mut Records, count: usize) -> Result<(), AllocError>
    ensures same { AreSameRecords records.old records.new }
    ensures subrs { OnOk result (count ≤ spare records.new.subrs) }
    ensures glyphs { OnOk result (count ≤ spare records.new.glyphs) }
{
    records.subrs.reserve(count)?;
    records.glyphs.reserve(count)
}

/// Makes all growths that changes of the records take: room for new entries and for the users that
/// join each, the records of new entries, the new runs by their names, and the names of what leaves
/// its place. The records stay as they are, also where memory runs out.
pub fn make_ready(
    alloc: Global,
    records: &mut Records,
    changes: Vec<EntryChange>,
    renewal: Renewal,
) -> Result<Ready, AllocError>
    requires { AreDistinctKeys (changed_keys changes.items) }
    ensures ready { IfOk result (IsReady changes.items renewal records.new) }
    ensures same { AreAsBefore records.old records.new }
{
    let Renewal {
        reruns,
        leaves,
        joins,
    } = renewal;
    make_room(alloc, records, &joins)?;
    reserve_entries(records, changes.len())?;
    let mut runs = runs_by_name(alloc, reruns)?;
    let steps = steps_with_room(alloc, records, changes, &joins, &mut runs)?;
    let taken = taken_out(alloc, records, &steps)?;
    Ok(Ready {
        steps,
        taken,
        runs,
        leaves,
        joins,
    })
}

/// Runs the glyphs that changes of entries make stale, each once, and makes all growths that the
/// changes of the records take; or answers the first fault of one of the edited source's glyphs, in
/// their order, which is asked for only then. The records stay as they are, at a refusal too.
pub fn prepare_changes<O: GlyphOrder>(
    alloc: Global,
    records: &mut Records,
    changes: Vec<EntryChange>,
    order: &O,
    meter: &mut Meter,
) -> Result<Ready, Refusal>
    requires { MayBePrepared changes.items records.old (O.ordered order.now) }
    ensures checked { (old new : SourceParts)
        → AreChangesOf changes.items old new records.old (O.ordered order.now)
        → Gives (λ _. tt) result (source_check new) }
    ensures ready { (old new : SourceParts)
        → AreChangesOf changes.items old new records.old (O.ordered order.now)
        → IfOk result (IsReadyFor meter.old changes.items old new records.new) }
    ensures counted { (old new : SourceParts)
        → AreChangesOf changes.items old new records.old (O.ordered order.now)
        → Counts (length (stale old (changed_keys changes.items) new)) meter.old meter.new result }
    ensures same { AreAsBefore records.old records.new }
{
    let renewal = rerun_changed(alloc, records, &changes, order, meter)?;
    let ready = make_ready(alloc, records, changes, renewal)?;
    Ok(ready)
}
