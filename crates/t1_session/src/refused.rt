//! What was refused last, and what is told of it.
ghost use Rattle.std.specs.Prelude.{◌≡◌, List, Ok, IfOk, MatchOption, map};
ghost use Rattle.t1_frac.specs.Outcome.{Refuses};
ghost use Rattle.t1_parts.specs.SourceParts.{SourceParts};
ghost use Rattle.t1_pairs.specs.declared.pairs.Pair.{Pair};
ghost use Rattle.t1_source.specs.Changes.{changed};
ghost use Rattle.t1_source.specs.Editing.{edited};
ghost use Rattle.t1_font.specs.SourceChecks.{source_check};
ghost use Rattle.t1_refusal.specs.Telling.{refused_fault_lines, fault_of, refusal_text};
ghost use Rattle.t1_cache.specs.Recorded.{kept_of};
ghost use Rattle.t1_held.specs.Edits.{IsPreparedEdit};
ghost use Rattle.t1_held.specs.Held.{IsHeld};
ghost use Rattle.t1_session.specs.Outcomes.{refused_source};
ghost use Rattle.t1_session.specs.Unnoted.{faulty_batch};
ghost use Rattle.t1_session.specs.Refusing.{edited_lines, refused_text, rule_line};
ghost use Rattle.t1_session.specs.KeptRefusals.{fault_of_edited, IsEditOfHeld};
ghost use Rattle.t1_session.specs.Commits.{RefusesSingle};

use std::alloc::{AllocError, Global};
use t1_commands::push_rule;
use t1_frac::{Fault, Refusal};
use t1_held::{Held, prepare_edit};
use t1_pairs::Pairs;
use t1_refusal::{body_fault_text, refusal_text, run_fault_text};
use t1_rerun::{change_alone, change_of_edit, edited_bodies};
use t1_run::Meter;
use t1_source::laws::source_is_well_formed;
use t1_source::{Cause, Change, Edit, Rule, Source};

/// What was refused last.
#[derive(Drop)]
pub enum Refused<'a> {
    /// A command, by this rule.
    Rule(Rule),
    /// An edit, whose source has a fault.
    Edit(Edit),
    /// A batch, by its source, which has a fault.
    Batch(Source<'a>),
}

/// The line of a rule.
fn rule_line(alloc: Global, rule: Rule) -> Result<Vec<u8>, AllocError>
    ensures { IfOk result (λ text. text.items ≡ rule_line rule) }
{
    let mut text = Vec::new(alloc);
    push_rule(&mut text, rule)?;
    Ok(text)
}

/// Why the source that a prepared edit makes is refused, where it is: the glyphs that the edit
/// makes stale are run for it, and not counted. What is held stays.
fn judged_edit<'e, 'a>(
    alloc: Global,
    source: &'e Source<'a>,
    pairs: &Pairs,
    held: &mut Held,
    edit: &Edit,
    change: &'e Change<'a>,
) -> Option<Refusal>
    requires { IsPreparedEdit source.now pairs.now edit.now change.now held.old }
    ensures checked { MatchOption result
        (source_check (changed change.now source.now pairs.now).0 ≡ Ok tt)
        (λ refusal.
        Refuses refusal (source_check (changed change.now source.now pairs.now).0)) }
    ensures held { IsHeld source.now held.new }
    ensures kept { map kept_of held.new.records.glyphs.entries
        ≡ map kept_of held.old.records.glyphs.entries }
{
    let mut meter = Meter::new();
    prepare_edit(alloc, held, source, pairs, edit, change, &mut meter).err()
}

/// The fault that a source is refused for.
fn told_fault(refusal: Refusal) -> Result<Option<Fault>, AllocError>
    ensures { (made : SourceParts)
        → Refuses refusal (source_check made)
        → IfOk result (λ fault. fault ≡ fault_of (source_check made)) }
{
    match refusal {
        Refusal::Fault(fault) => Ok(Some(fault)),
        Refusal::Memory => Err(AllocError),
    }
}

/// The first fault of the source that a prepared edit makes. What is held stays.
fn prepared_fault<'e, 'a>(
    alloc: Global,
    source: &'e Source<'a>,
    pairs: &Pairs,
    held: &mut Held,
    edit: &Edit,
    change: &'e Change<'a>,
) -> Result<Option<Fault>, AllocError>
    requires { IsPreparedEdit source.now pairs.now edit.now change.now held.old }
    ensures fault { IfOk result (λ fault.
        fault ≡ fault_of (source_check (changed change.now source.now pairs.now).0)) }
    ensures held { IsHeld source.now held.new }
    ensures kept { map kept_of held.new.records.glyphs.entries
        ≡ map kept_of held.old.records.glyphs.entries }
{
    match judged_edit(alloc, source, pairs, held, edit, change) {
        None => Ok(None),
        Some(refusal) => told_fault(refusal),
    }
}

/// The same of an edit that is to be prepared.
fn edited_fault(
    alloc: Global,
    source: &Source,
    pairs: &Pairs,
    held: &mut Held,
    edit: &Edit,
) -> Result<Option<Fault>, AllocError>
    requires { IsHeld source.now held.old }
    ensures fault { IfOk result
        (λ fault. fault ≡ fault_of_edited (edited source.now pairs.now edit.now)) }
    ensures held { IsHeld source.now held.new }
    ensures kept { map kept_of held.new.records.glyphs.entries
        ≡ map kept_of held.old.records.glyphs.entries }
{
    source_is_well_formed(source);
    match source.prepared(pairs, edit) {
        Ok(change) => {
            let fault = prepared_fault(alloc, source, pairs, held, edit, &change);
            drop(change);
            fault
        }
        Err(_) => Err(AllocError),
    }
}

/// The lines of a fault of an edited source. Its bodies are those that are held, but for the one
/// that the edit sets or takes out; no other is compiled.
fn fault_text(
    alloc: Global,
    held: &Held,
    edit: &Edit,
    made: &Source,
    fault: &Fault,
) -> Result<Vec<u8>, AllocError>
    requires { IsEditOfHeld edit.now made.now held.now }
    ensures { IfOk result (λ text. text.items ≡ refused_fault_lines made.now.items fault.now) }
{
    match change_of_edit(alloc, edit) {
        Ok(change) => {
            let changes = change_alone(alloc, change)?;
            let bodies = edited_bodies(alloc, &held.records, &changes)?;
            run_fault_text(alloc, made.items(), &bodies, fault)
        }
        Err(Refusal::Fault(_fault)) => body_fault_text(alloc, made.items(), fault),
        Err(Refusal::Memory) => Err(AllocError),
    }
}

/// The lines of the first fault of an edited source; none where it has none.
fn made_lines(
    alloc: Global,
    source: &Source,
    pairs: &Pairs,
    held: &mut Held,
    edit: &Edit,
    made: &Source,
) -> Result<Vec<u8>, AllocError>
    requires held { IsHeld source.now held.old }
    requires made { (others : List Pair)
        × (edited source.now pairs.now edit.now ≡ Ok (made.now, others)) }
    ensures shown { IfOk result (λ text. text.items ≡ refusal_text made.now) }
    ensures held { IsHeld source.now held.new }
    ensures kept { map kept_of held.new.records.glyphs.entries
        ≡ map kept_of held.old.records.glyphs.entries }
{
    source_is_well_formed(source);
    source_is_well_formed(made);
    let Some(fault) = edited_fault(alloc, source, pairs, held, edit)? else {
        return Ok(Vec::new(alloc));
    };
    fault_text(alloc, held, edit, made, &fault)
}

/// The lines of an edit that was refused. It costs about as much as the edit did: what is held of
/// the source stays.
fn edited_lines(
    alloc: Global,
    source: &Source,
    pairs: &Pairs,
    held: &mut Held,
    edit: &Edit,
) -> Result<Vec<u8>, AllocError>
    requires { IsHeld source.now held.old }
    ensures shown { IfOk result
        (λ text. text.items ≡ edited_lines (edited source.now pairs.now edit.now)) }
    ensures held { IsHeld source.now held.new }
    ensures kept { map kept_of held.new.records.glyphs.entries
        ≡ map kept_of held.old.records.glyphs.entries }
{
    match source.edited(pairs, edit) {
        Ok((made, _pairs)) => made_lines(alloc, source, pairs, held, edit, &made),
        Err(Cause::Rule(rule)) => rule_line(alloc, rule),
        // An edit that isn't made yet breaks a rule, or wants memory.
        Err(_) => Err(AllocError),
    }
}

/// What is told of what was refused. What is held of the source stays.
#[tactic(auto, unfolding(crate::specs::Refusing::refused_text))]
pub fn refused_text(
    alloc: Global,
    source: &Source,
    pairs: &Pairs,
    held: &mut Held,
    refused: &Option<Refused>,
) -> Result<Vec<u8>, AllocError>
    requires { IsHeld source.now held.old }
    ensures shown { IfOk result
        (λ text. text.items ≡ refused_text source.now pairs.now refused.now) }
    ensures held { IsHeld source.now held.new }
    ensures kept { map kept_of held.new.records.glyphs.entries
        ≡ map kept_of held.old.records.glyphs.entries }
{
    let Some(refused) = refused else {
        return Ok(Vec::new(alloc));
    };
    match refused {
        Refused::Rule(rule) => rule_line(alloc, *rule),
        Refused::Edit(edit) => edited_lines(alloc, source, pairs, held, edit),
        Refused::Batch(made) => refusal_text(alloc, made),
    }
}

/// Why a batch is refused whose source is refused, and its source, where that has a fault.
pub fn refused_batch<'a>(refusal: Refusal, made: Source<'a>) -> (Cause, Option<Refused<'a>>)
    ensures cause { result.0 ≡ refused_source refusal }
    ensures kept { result.1 ≡ faulty_batch refusal made.entry }
{
    match refusal {
        Refusal::Fault(fault) => (Cause::Fault(fault), Some(Refused::Batch(made))),
        Refusal::Memory => (Cause::Memory, None),
    }
}

/// Why a batch of one edit is refused whose edit, which breaks no rule, is refused for this cause;
/// and the source that the edit makes, where that has a fault.
pub fn refused_single<'a>(
    source: &Source<'a>,
    pairs: &Pairs,
    edit: &Edit,
    cause: Cause,
) -> (Cause, Option<Refused<'a>>)
    ensures { (made : SourceParts × List Pair)
        → edited source.now pairs.now edit.now ≡ Ok made
        → RefusesSingle made.0 cause result.0 result.1 }
{
    let Cause::Fault(fault) = cause else {
        return (cause, None);
    };
    match source.edited(pairs, edit) {
        Ok((made, _pairs)) => (Cause::Fault(fault), Some(Refused::Batch(made))),
        // It breaks no rule.
        Err(_) => (Cause::Memory, None),
    }
}
