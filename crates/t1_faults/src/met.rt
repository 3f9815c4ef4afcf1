//! The faults that runs meet, each in the body where it stands.

ghost use Rattle.std.specs.Prelude.{◌≡◌, ◌≤◌, ◌∷◌, ◌++◌, [], ℕ, List, None, Some, IfOk};
ghost use Rattle.std.specs.Prelude.{OnOk, length, map, if◌then◌else◌};
ghost use Rattle.std.specs.List.{position_or_len};
ghost use Rattle.std.specs.Option.{option_or};
ghost use Rattle.std.specs.Str.{bytes_eq};
ghost use Rattle.t1_chain.specs.Machine.{failure_seen};
ghost use Rattle.t1_faults.specs.GlyphRuns.{has_fault_code, is_at, faults_kept_at, own_kept};
ghost use Rattle.t1_faults.specs.GlyphRuns.{seen_run};
ghost use Rattle.t1_faults.specs.GlyphRuns.{with_chain};
ghost use Rattle.t1_faults.specs.Met.{chain_of, fails_in_glyph};
ghost use Rattle.t1_chain.specs.GlyphFailures.{GlyphFailure as FailedRunOf};
ghost use Rattle.t1_faults.specs.Met.{faults_at, faults_by_code, last_entered, own_fault};
ghost use Rattle.t1_faults.specs.Met.{run_fault};

use crate::call_chains::{CallChain, CallChains};
use crate::failed_run::FailedRun;
use crate::run_fault::RunFault;
use indexmap::IndexMap;
use std::alloc::{AllocError, Global};
use t1_chain::{Call, Detail, Failure};
use t1_font::SubrNumbers;
use t1_frac::{Bytes, Code};

/// A copy of what a fault says beside its code.
pub(crate) fn copied_detail(alloc: Global, detail: &Detail) -> Result<Detail, AllocError>
    ensures { IfOk result (λ copy. copy ≡ detail.now) }
{
    match detail {
        Detail::Nothing => Ok(Detail::Nothing),
        Detail::Number(number) => Ok(Detail::Number(*number)),
        Detail::Quotient(num, den) => Ok(Detail::Quotient(*num, *den)),
        Detail::Glyph(name) => Ok(Detail::Glyph(Bytes::copied(alloc, name.as_slice())?)),
        Detail::Values(there, wanted) => Ok(Detail::Values(*there, *wanted)),
        Detail::Points(recorded) => Ok(Detail::Points(*recorded)),
        Detail::Line(number) => Ok(Detail::Line(*number)),
    }
}

/// The Subr that a run entered last before it failed.
fn last_entered(failure: &Failure) -> Option<u16>
    ensures { result ≡ last_entered (failure_seen failure.now).calls }
{
    match failure.calls.last() {
        None => None,
        Some(call) => Some(call.subr),
    }
}

/// The Subrs that some calls enter, in turn.
fn entered(alloc: Global, calls: &[Call]) -> Result<Vec<u16>, AllocError>
    ensures { IfOk result (λ subrs. subrs.items ≡ map (λ call. call.subr) calls.now) }
{
    let mut subrs = Vec::new(alloc);
    for call in calls {
        subrs.push(call.subr)?;
    }
    Ok(subrs)
}

/// A glyph whose run fails, and the Subrs that it had entered.
fn chain_of(alloc: Global, run: &FailedRun) -> Result<CallChain, AllocError>
    ensures { IfOk result (λ chain. chain ≡ chain_of (seen_run run.now)) }
{
    let subrs = entered(alloc, run.failure.calls.as_slice())?;
    Ok(CallChain {
        glyph: Bytes::copied(alloc, run.glyph.as_slice())?,
        subrs: SubrNumbers::copied(alloc, subrs.as_slice())?,
    })
}

/// The fault of a run that fails so, with these chains.
fn run_fault(alloc: Global, chains: CallChains, failure: &Failure) -> Result<RunFault, AllocError>
    ensures { IfOk result (λ fault. fault ≡ run_fault chains (failure_seen failure.now)) }
{
    Ok(RunFault {
        word: failure.word,
        code: failure.code,
        detail: copied_detail(alloc, &failure.detail)?,
        chains,
    })
}

/// Keeps the fault of a run that fails so for a glyph that has none.
fn keep_own(
    alloc: Global,
    faults: &mut IndexMap<Vec<u8>, RunFault>,
    name: &[u8],
    failure: &Failure,
) -> Result<(), AllocError>
    ensures { OnOk result ((g : List ℕ) → own_kept faults.new.entries g
        ≡ option_or
        (own_kept faults.old.entries g)
        (if bytes_eq g name.now then Some (run_fault [] (failure_seen failure.now)) else None)) }
{
    let fault = run_fault(alloc, CallChains::new(alloc), failure)?;
    if faults.contains_key(name) {
        return Ok(());
    }
    faults.insert(Vec::from_slice(alloc, name)?, fault)?;
    Ok(())
}

/// Keeps the fault of a run that fails in the glyph's own body.
fn add_own_fault(
    alloc: Global,
    faults: &mut IndexMap<Vec<u8>, RunFault>,
    run: &FailedRun,
) -> Result<(), AllocError>
    ensures { OnOk result ((g : List ℕ) → own_kept faults.new.entries g
        ≡ option_or
        (own_kept faults.old.entries g)
        (if fails_in_glyph g (seen_run run.now)
        then Some (run_fault [] (failure_seen run.now.failure)) else None)) }
{
    if last_entered(&run.failure).is_some() {
        return Ok(());
    }
    keep_own(alloc, faults, run.glyph.as_slice(), &run.failure)?;
    Ok(())
}

/// The faults of runs that fail in the glyphs' own bodies, by the glyphs' names.
fn own_faults(
    alloc: Global,
    failed: &[FailedRun],
) -> Result<IndexMap<Vec<u8>, RunFault>, AllocError>
    ensures { IfOk result (λ faults. (g : List ℕ) →
        own_kept faults.entries g ≡ own_fault (map seen_run failed.now) g) }
{
    let mut faults = IndexMap::new(alloc);
    for run in failed {
        add_own_fault(alloc, &mut faults, run)?;
    }
    Ok(faults)
}

/// Whether a fault has this code.
fn has_code(code: Code, fault: &RunFault) -> bool
    ensures { result ≡ has_fault_code code fault.now }
{
    fault.code == code
}

/// Which fault has this code, or how many there are.
fn place_of_code(code: Code, faults: &[RunFault]) -> usize
    ensures within { result ≤ length faults.now }
    ensures value { result ≡ position_or_len (has_fault_code code) faults.now }
{
    let mut at = 0;
    let mut rest = faults;
    while let Some((fault, after)) = rest.split_first() {
        if has_code(code, fault) {
            return at;
        }
        at += 1;
        rest = after;
    }
    at
}

/// The fault of a run that fails in a Subr, with its chain.
fn first_fault(alloc: Global, run: &FailedRun) -> Result<RunFault, AllocError>
    ensures { IfOk result (λ fault.
        fault ≡ run_fault (chain_of (seen_run run.now) ∷ []) (failure_seen run.now.failure)) }
{
    let mut chains = CallChains::new(alloc);
    chains.push(chain_of(alloc, run)?)?;
    run_fault(alloc, chains, &run.failure)
}

/// Adds a chain to those of a fault.
fn add_chain(fault: &mut RunFault, chain: CallChain) -> Result<(), AllocError>
    ensures { OnOk result (fault.new ≡ with_chain chain fault.old) }
{
    fault.chains.push(chain)
}

/// Adds a run to those that fail at a word of a Subr, of which these are the faults: its chain, or
/// a fault where none has its code.
fn add_run(alloc: Global, faults: &mut Vec<RunFault>, run: &FailedRun) -> Result<(), AllocError>
    ensures { OnOk result ((runs : List FailedRunOf) →
        faults.old.items ≡ faults_by_code runs →
        faults.new.items ≡ faults_by_code (runs ++ seen_run run.now ∷ [])) }
{
    let at = place_of_code(run.failure.code, faults);
    if at < faults.len() {
        let chain = chain_of(alloc, run)?;
        add_chain(&mut faults[at], chain)?;
        return Ok(());
    }
    faults.push(first_fault(alloc, run)?)?;
    Ok(())
}

/// Takes out the faults that are kept for a word of a Subr.
fn taken(
    alloc: Global,
    met: &mut IndexMap<(u16, usize), Vec<RunFault>>,
    subr: u16,
    word: usize,
) -> Vec<RunFault>
    ensures taken { result.items ≡ faults_kept_at met.old.entries subr word }
    ensures others { (n k : ℕ) → faults_kept_at met.new.entries n k
        ≡ (if is_at n k (subr, word) then [] else faults_kept_at met.old.entries n k) }
{
    match met.swap_remove(&(subr, word)) {
        Some(faults) => faults,
        None => Vec::new(alloc),
    }
}

/// Keeps the faults of a word of a Subr, in the place of those before.
fn keep(
    met: &mut IndexMap<(u16, usize), Vec<RunFault>>,
    subr: u16,
    word: usize,
    faults: Vec<RunFault>,
) -> Result<(), AllocError>
    ensures { OnOk result ((n k : ℕ) → faults_kept_at met.new.entries n k
        ≡ (if is_at n k (subr, word) then faults.items else faults_kept_at met.old.entries n k)) }
{
    met.insert((subr, word), faults)?;
    Ok(())
}

/// Adds a run that fails at a word of a Subr to those that are kept.
fn add_at(
    alloc: Global,
    met: &mut IndexMap<(u16, usize), Vec<RunFault>>,
    subr: u16,
    run: &FailedRun,
) -> Result<(), AllocError>
    ensures { OnOk result ((n k : ℕ) (runs : List FailedRunOf) →
        faults_kept_at met.old.entries n k ≡ faults_by_code runs →
        faults_kept_at met.new.entries n k
        ≡ faults_by_code
        (if is_at n k (subr, run.now.failure.word) then runs ++ seen_run run.now ∷ [] else runs)) }
{
    let word = run.failure.word;
    let mut faults = taken(alloc, met, subr, word);
    add_run(alloc, &mut faults, run)?;
    keep(met, subr, word, faults)?;
    Ok(())
}

/// Adds a run to those that are kept, where it fails in a Subr.
fn add_in_subr(
    alloc: Global,
    met: &mut IndexMap<(u16, usize), Vec<RunFault>>,
    run: &FailedRun,
) -> Result<(), AllocError>
    ensures { OnOk result ((n k : ℕ) (runs : List FailedRunOf) →
        faults_kept_at met.old.entries n k ≡ faults_at runs n k →
        faults_kept_at met.new.entries n k ≡ faults_at (runs ++ seen_run run.now ∷ []) n k) }
{
    let Some(subr) = last_entered(&run.failure) else {
        return Ok(());
    };
    add_at(alloc, met, subr, run)?;
    Ok(())
}

/// The faults of runs that fail in Subrs, by the numbers of the Subrs and of their words.
fn faults_in_subrs(
    alloc: Global,
    failed: &[FailedRun],
) -> Result<IndexMap<(u16, usize), Vec<RunFault>>, AllocError>
    ensures { IfOk result (λ met. (n k : ℕ) →
        faults_kept_at met.entries n k ≡ faults_at (map seen_run failed.now) n k) }
{
    let mut met = IndexMap::new(alloc);
    for run in failed {
        add_in_subr(alloc, &mut met, run)?;
    }
    Ok(met)
}

/// The faults that runs met.
#[derive(Drop)]
pub(crate) struct MetFaults {
    /// In the own bodies of glyphs, by the glyphs' names.
    pub own: IndexMap<Vec<u8>, RunFault>,
    /// In Subrs, by their numbers and the numbers of their words, from 0.
    pub in_subrs: IndexMap<(u16, usize), Vec<RunFault>>,
}

/// The faults that these runs met.
pub(crate) fn met_faults(alloc: Global, failed: &[FailedRun]) -> Result<MetFaults, AllocError>
    ensures own { IfOk result (λ met. (g : List ℕ) →
        own_kept met.own.entries g ≡ own_fault (map seen_run failed.now) g) }
    ensures in_subrs { IfOk result (λ met. (n k : ℕ) →
        faults_kept_at met.in_subrs.entries n k ≡ faults_at (map seen_run failed.now) n k) }
{
    Ok(MetFaults {
        own: own_faults(alloc, failed)?,
        in_subrs: faults_in_subrs(alloc, failed)?,
    })
}
