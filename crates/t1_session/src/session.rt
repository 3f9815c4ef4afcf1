//! A session: a font that is kept current under edits, and the commands that are performed on it.
mod printing;

use crate::open_batch::OpenBatch;
use crate::refused::Refused;
use std::alloc::Global;
use std::marker::Model;
use t1_held::{Batch, Held};
use t1_pairs::Pairs;
use t1_run::Meter;
use t1_source::Source;

/// A font under edits: its source and its pairs, the batch that is open, what is held of its Subrs
/// and glyphs, the count of runs, and what was refused last. The source has no fault, what is held
/// is that of the source from scratch, and the batch's source is what its edits made of the
/// session's.
#[derive(Drop)]
pub struct Session<'a> {
    alloc: Global,
    source: Source<'a>,
    pairs: Pairs,
    held: Held,
    meter: Meter,
    batch: OpenBatch<'a>,
    refused: Option<Refused<'a>>,
}

impl<'a> Model for Session<'a> {
    ghost use Rattle.std.specs.Prelude.{map};
    ghost use Rattle.t1_cache.specs.Recorded.{kept_of};
    ghost use Rattle.t1_held.specs.Held.{IsHeld};
    ghost use Rattle.t1_session.specs.State.{SessionView};
    ghost use Rattle.t1_session.specs.OpenBatch.{open_draft, IsOpenOn};
    ghost use Rattle.t1_session.specs.Users.{user_table};

    ghost Value = { SessionView };

    ghost view = { λ s. record {
      state = record {
        source = s.source;
        pairs = s.pairs;
        batch = open_draft s.source s.pairs s.batch;
        refused = s.refused;
      };
      kept = map kept_of s.held.records.glyphs.entries;
      users = user_table s.held.records;
      runs = s.meter;
    } };

    ghost invariant = { λ s. IsHeld s.source s.held × IsOpenOn s.source s.pairs s.batch };
}

/// A session that commands are performed on. Contracts see its source, its pairs and the batch that
/// is open.
#[derive(Drop)]
pub struct Performer<'a> {
    session: Session<'a>,
}

impl<'a> Model for Performer<'a> {
    ghost use Rattle.t1_session.specs.State.{SessionState};

    ghost Value = { SessionState };

    ghost view = { λ performer. performer.session.state };
}

ghost use Rattle.std.specs.Prelude.{◌≡◌, Ok, IfOk, List, None, Some, is_some, length, map, true};
ghost use Rattle.t1_frac.specs.Outcome.{Gives};
ghost use Rattle.t1_source.specs.Changes.{changed, Suits};
ghost use Rattle.t1_source.specs.Editing.{edited};
ghost use Rattle.t1_pairs.specs.Kerning.{kern, pairs};
ghost use Rattle.t1_parts.specs.Printing.{text};
ghost use Rattle.t1_parts.specs.Reading.{reads};
ghost use Rattle.t1_font.specs.Glyphs.{glyph_names};
ghost use Rattle.t1_font.specs.RunCounts.{counted};
ghost use Rattle.t1_font.specs.SourceChecks.{source_check};
ghost use Rattle.t1_cache.specs.EditKeys.{named};
ghost use Rattle.t1_charstrings.specs.Beside.{IsKeptBeside};
ghost use Rattle.t1_held.specs.Batch.{count_begin, entry_edit, keys};
ghost use Rattle.t1_held.specs.Drafting.{IsDraftOf, IsEditedBy};
ghost use Rattle.t1_parts.specs.SourceParts.{SourceParts};
ghost use Rattle.t1_pairs.specs.declared.pairs.Pair.{Pair};
ghost use Rattle.t1_commands.specs.declared.command.SessionCommand.TheVariants as commands;
ghost use Rattle.t1_commands.specs.AnswerTexts.{answer_text};
ghost use Rattle.t1_commands.specs.Answering.{ReportsPerformed};
ghost use Rattle.t1_commands.specs.MadeCommands.{Makes};
ghost use Rattle.t1_session.specs.OpenBatch.{draft_of_edit};
ghost use Rattle.t1_session.specs.Commits.{draft_of_none, Commits};
ghost use Rattle.t1_session.specs.Conversation.{AnswersCommand, IsPerformed, Sends};
ghost use Rattle.t1_session.specs.Machine.{judged, opened, refused_batch};
ghost use Rattle.t1_session.specs.Outcomes.{Takes, TakesOrReturns, refused_source};
ghost use Rattle.t1_session.specs.Unnoted.{TakesUnnoted, Took, with_refused};
ghost use Rattle.t1_session.specs.Records.{AreFromScratch};
ghost use Rattle.t1_session.specs.KeptRefusals.{OnFault, refused_after};
ghost use Rattle.t1_session.specs.Reruns.{edition, AreKept, Reruns, RerunsOrReturns};
ghost use Rattle.t1_session.specs.RerunsByTest.{RerunsByTest};
ghost use Rattle.t1_session.specs.Users.{AreUsers};

use crate::error::ServeError;
use crate::refused::{refused_batch, refused_single};
use std::alloc::AllocError;
use std::io::Write;
use std::mem;
use t1_code::{Counted, OutError};
use t1_commands::{Answer, SessionCommand, answer_of, put_answer};
use t1_frac::Refusal;
use t1_held::{BatchEdits, held_of, hint_of, prepare_batch, prepare_edit, settle};
use t1_pairs::laws::text_of_pairs_read;
use t1_source::laws::{source_is_well_formed, text_of_source_read};
use t1_source::{Cause, Change, Edit, Rule};

/// Why an edit is refused whose source is refused.
fn cause_of(refusal: Refusal) -> Cause
    ensures { result ≡ refused_source refusal }
{
    match refusal {
        Refusal::Fault(fault) => Cause::Fault(fault),
        Refusal::Memory => Cause::Memory,
    }
}

/// Keeps a refusal by what a call answers, or forgets the last one; this is kept where the source
/// has a fault.
fn keep<'a>(
    kept: &mut Option<Refused<'a>>,
    faulty: Option<Refused<'a>>,
    answered: &Result<(), Cause>,
)
    ensures { kept.new ≡ refused_after faulty.entry kept.old answered.now }
{
    match answered {
        Ok(()) => {
            drop(faulty);
            put(kept, None);
        }
        Err(Cause::Rule(rule)) => {
            drop(faulty);
            put(kept, Some(Refused::Rule(*rule)));
        }
        Err(Cause::Fault(_)) => put(kept, faulty),
        Err(Cause::Memory) => drop(faulty),
    }
}

/// Keeps this in the place of what was kept.
fn put<'a>(kept: &mut Option<Refused<'a>>, refused: Option<Refused<'a>>)
    ensures { kept.new ≡ refused.entry }
{
    drop(mem::replace(kept, refused));
}

impl<'a> Session<'a> {
    /// The session of a source and its pairs, or the source's first fault: of a body, F23, or of a
    /// glyph, in the order of the source. A refusal drops both.
    #[tactic(auto, using(crate::proofs::StateLaws::check_refused, crate::proofs::StateLaws::check_passed))]
    pub fn open(alloc: Global, source: Source<'a>, pairs: Pairs) -> Result<Session<'a>, Refusal>
        ensures checked { Gives (λ session. session.state) result (opened source.entry pairs) }
        ensures right { IfOk result (λ session. AreFromScratch session.state.source session.kept) }
        ensures users { IfOk result (λ session. AreUsers session.state.source session.users) }
        ensures runs { IfOk result (λ session. session.runs ≡ counted 0
            (length (glyph_names source.entry.items))) }
    {
        let mut meter = Meter::new();
        let held = held_of(alloc, &source, &mut meter)?;
        let session = Session {
            alloc,
            source,
            pairs,
            held,
            meter,
            batch: OpenBatch::Closed,
            refused: None,
        };
        session.records_are_right();
        session.users_are_right();
        Ok(session)
    }

    /// Whether a batch is open.
    pub fn in_batch(&self) -> bool
        ensures { result ≡ is_some self.now.state.batch }
    {
        self.batch.is_open()
    }

    /// How many runs of glyphs were made since the session was opened, or 2^64 - 1 where they are
    /// more: each glyph's once at the opening, then those of the glyphs that edits made stale.
    pub fn runs(&self) -> u64
        ensures { result ≡ self.now.runs }
    {
        self.meter.count()
    }

    /// Takes an edit, or refuses it. Outside a batch the first edit rule that it breaks refuses it,
    /// else the first fault of the edited source; in a batch the edit rules alone. A refusal
    /// changes nothing; what was refused is kept for `show_refusal`, until one of these calls is
    /// accepted.
    pub fn apply(&mut self, edit: Edit) -> Result<(), Cause>
        ensures takes { Takes self.old.state (commands.Edit edit) result self.new.state }
        ensures right { AreFromScratch self.new.state.source self.new.kept }
        ensures users { AreUsers self.new.state.source self.new.users }
        ensures runs { Reruns (edition self.old.state (commands.Edit edit)) self.old result
            self.new }
    {
        self.reads_back();
        let taken = self.take(&edit);
        self.records_are_right();
        self.users_are_right();
        self.keep(Some(Refused::Edit(edit)), &taken);
        taken
    }

    /// Does what `apply` does, and hands the edit back with a refusal. Of an edit whose source has
    /// a fault nothing is kept then.
    pub fn try_apply(&mut self, edit: Edit) -> Result<(), (Cause, Edit)>
        ensures takes { TakesOrReturns self.old.state (commands.Edit edit) edit result
            self.new.state }
        ensures right { AreFromScratch self.new.state.source self.new.kept }
        ensures users { AreUsers self.new.state.source self.new.users }
        ensures runs { RerunsOrReturns (edition self.old.state (commands.Edit edit)) self.old result
            self.new }
    {
        self.reads_back();
        let taken = self.take(&edit);
        self.records_are_right();
        self.users_are_right();
        self.keep(None, &taken);
        match taken {
            Ok(()) => Ok(()),
            Err(cause) => Err((cause, edit)),
        }
    }

    /// Opens a batch; E11 where one is open. Its second edit makes copies of the source and the
    /// pairs, which share what no edit of the batch changes.
    pub fn begin(&mut self) -> Result<(), Cause>
        ensures takes { Takes self.old.state commands.Begin result self.new.state }
        ensures kept { AreKept self.old self.new }
    {
        let begun = self.open_batch();
        self.keep(None, &begun);
        begun
    }

    /// Opens a batch; E11 where one is open.
    #[tactic(auto, unfolding(crate::specs::Machine::outcome))]
    fn open_batch(&mut self) -> Result<(), Cause>
        ensures takes { TakesUnnoted self.old.state commands.Begin result self.new.state }
        ensures kept { AreKept self.old self.new }
    {
        if self.batch.is_open() {
            return Err(Cause::Rule(Rule::E11));
        }
        drop(mem::replace(&mut self.batch, OpenBatch::Unedited));
        Ok(())
    }

    /// Closes the batch, and takes its source and its pairs unless the source has a fault; E12
    /// where none is open. Each glyph that some edit of the batch makes stale is run once. A
    /// refusal, also since memory ran out, leaves the session as before the batch; the source of a
    /// batch with a fault is kept for `show_refusal`.
    pub fn commit(&mut self) -> Result<(), Cause>
        ensures takes { Takes self.old.state commands.Commit result self.new.state }
        ensures right { AreFromScratch self.new.state.source self.new.kept }
        ensures users { AreUsers self.new.state.source self.new.users }
        ensures runs { Reruns (edition self.old.state commands.Commit) self.old result self.new }
    {
        self.reads_back();
        let (committed, faulty) = self.close_batch();
        self.records_are_right();
        self.users_are_right();
        self.keep(faulty, &committed);
        committed
    }

    /// Closes the batch and drops its edits; E12 where none is open. It takes no memory.
    pub fn abort(&mut self) -> Result<(), Cause>
        ensures takes { Takes self.old.state commands.Abort result self.new.state }
        ensures kept { AreKept self.old self.new }
    {
        let dropped = self.drop_batch();
        self.keep(None, &dropped);
        dropped
    }

    /// Closes the batch and drops its edits; E12 where none is open.
    #[tactic(auto, unfolding(crate::specs::Machine::outcome))]
    fn drop_batch(&mut self) -> Result<(), Cause>
        ensures takes { TakesUnnoted self.old.state commands.Abort result self.new.state }
        ensures kept { AreKept self.old self.new }
    {
        if !self.batch.is_open() {
            return Err(Cause::Rule(Rule::E12));
        }
        drop(mem::replace(&mut self.batch, OpenBatch::Closed));
        Ok(())
    }

    /// Keeps what was refused by what is answered, or forgets what was refused before; this is what
    /// is kept where the source has a fault.
    fn keep(&mut self, faulty: Option<Refused<'a>>, answered: &Result<(), Cause>)
        ensures { self.new ≡ with_refused self.old (refused_after faulty.entry
            self.old.state.refused answered.now) }
    {
        keep(&mut self.refused, faulty, answered);
    }

    /// Closes the batch, and takes its source and its pairs unless the source has a fault; E12
    /// where none is open. With it what is kept of a batch that has a fault.
    #[tactic(auto, unfolding(crate::specs::Machine::outcome))]
    fn close_batch(&mut self) -> (Result<(), Cause>, Option<Refused<'a>>)
        ensures takes { TakesUnnoted self.old.state commands.Commit result.0 self.new.state }
        ensures faulty { OnFault result.0 (result.1 ≡ refused_batch self.old.state.batch) }
        ensures runs { RerunsByTest (edition self.old.state commands.Commit) self.old result.0
            self.new }
    {
        match mem::replace(&mut self.batch, OpenBatch::Closed) {
            OpenBatch::Closed => (Err(Cause::Rule(Rule::E12)), None),
            OpenBatch::Unedited => self.commit_nothing(),
            OpenBatch::Single(edit, _near) => self.commit_single(&edit),
            OpenBatch::Drafted(batch) => self.commit_drafted(batch),
        }
    }

    /// Commits a batch.
    fn commit_drafted(&mut self, batch: Batch<'a>) -> (Result<(), Cause>, Option<Refused<'a>>)
        requires none { self.old.state.batch ≡ None }
        requires draft { IsDraftOf self.old.state.source batch }
        ensures { Commits batch.entry.draft self.old result.0 result.1 self.new }
    {
        let (source, pairs, edits) = batch.into_parts();
        self.accept(source, pairs, edits)
    }

    /// Commits a batch without edits.
    fn commit_nothing(&mut self) -> (Result<(), Cause>, Option<Refused<'a>>)
        requires { self.old.state.batch ≡ None }
        ensures { Commits (draft_of_none self.old.state) self.old result.0 result.1 self.new }
    {
        source_is_well_formed(&self.source);
        match Batch::of(self.alloc, &self.source, &self.pairs) {
            Ok(batch) => self.commit_drafted(batch),
            Err(_) => (Err(Cause::Memory), None),
        }
    }

    /// Commits a batch of one edit, as the edit is taken outside a batch. Only where its source has
    /// a fault, that source is made.
    fn commit_single(&mut self, edit: &Edit) -> (Result<(), Cause>, Option<Refused<'a>>)
        requires none { self.old.state.batch ≡ None }
        requires made { (made : SourceParts × List Pair)
            × (edited self.old.state.source self.old.state.pairs edit.now ≡ Ok made) }
        ensures { (made : SourceParts × List Pair)
            → edited self.old.state.source self.old.state.pairs edit.now ≡ Ok made
            → Commits (draft_of_edit edit.now made) self.old result.0 result.1 self.new }
    {
        if let Err(cause) = self.take(edit) {
            let (cause, faulty) = refused_single(&self.source, &self.pairs, edit, cause);
            return (Err(cause), faulty);
        }
        (Ok(()), None)
    }

    /// Takes an edit, or refuses it.
    #[tactic(auto, unfolding(crate::specs::Machine::outcome))]
    fn take(&mut self, edit: &Edit) -> Result<(), Cause>
        ensures takes { TakesUnnoted self.old.state (commands.Edit edit.now) result self.new.state }
        ensures runs { RerunsByTest (edition self.old.state (commands.Edit edit.now)) self.old
            result self.new }
    {
        let hint = hint_of(&self.held, self.source.items().len(), edit);
        if self.batch.is_open() {
            return self
                .batch
                .edit(self.alloc, &self.source, &self.pairs, edit, hint);
        }
        let change = self.source.prepared_near(&self.pairs, edit, hint)?;
        self.make(edit, change)
    }

    /// Makes the change that was prepared for an edit, unless the edited source has a fault. The
    /// glyphs that the edit makes stale are run, and no others.
    fn make(&mut self, edit: &Edit, change: Change<'a>) -> Result<(), Cause>
        requires none { self.old.state.batch ≡ None }
        requires serves { Suits change self.old.state.source self.old.state.pairs }
        requires made { edited self.old.state.source self.old.state.pairs edit.now
            ≡ Ok (changed change self.old.state.source self.old.state.pairs) }
        ensures took { Took self.old.state
            (judged self.old.state (changed change.entry self.old.state.source self.old.state.pairs)
            (source_check (changed change.entry self.old.state.source self.old.state.pairs).0)) true
            self.old.state result self.new.state }
        ensures runs { RerunsByTest (Some
            (record {
              keys = named edit.now;
              source =
                  (changed change.entry self.old.state.source self.old.state.pairs).0;
            })) self.old result
            self.new }
    {
        text_of_source_read(&self.source);
        let prepared = prepare_edit(
            self.alloc,
            &mut self.held,
            &self.source,
            &self.pairs,
            edit,
            &change,
            &mut self.meter,
        );
        let ready = match prepared {
            Ok(ready) => ready,
            Err(refusal) => {
                drop(change);
                return Err(cause_of(refusal));
            }
        };
        self.source.commit(&mut self.pairs, change)?;
        settle(&mut self.held, ready);
        Ok(())
    }

    /// Takes the source and the pairs of a batch in the place of its own, unless the source has a
    /// fault; then with what is kept of it. The glyphs that its edits make stale are run, and no
    /// others.
    fn accept(
        &mut self,
        source: Source<'a>,
        pairs: Pairs,
        edits: BatchEdits,
    ) -> (Result<(), Cause>, Option<Refused<'a>>)
        requires none { self.old.state.batch ≡ None }
        requires edited { IsEditedBy (map entry_edit edits.entries.items) self.old.state.source
            source }
        requires beside { IsKeptBeside self.old.state.source count_begin source edits.beside }
        ensures took { Took self.old.state
            (judged self.old.state (source.entry, pairs) (source_check source.entry)) true
            self.old.state result.0 self.new.state }
        ensures faulty { OnFault result.0 (result.1 ≡ Some (Refused.Batch source.entry)) }
        ensures runs { RerunsByTest (Some
            (record {
              keys = keys (map entry_edit edits.entries.items);
              source = source.entry;
            })) self.old
            result.0 self.new }
    {
        let prepared = prepare_batch(
            self.alloc,
            &mut self.held,
            &self.source,
            &source,
            edits,
            &mut self.meter,
        );
        let ready = match prepared {
            Ok(ready) => ready,
            Err(refusal) => {
                let (cause, faulty) = refused_batch(refusal, source);
                return (Err(cause), faulty);
            }
        };
        let _source = mem::replace(&mut self.source, source);
        self.pairs = pairs;
        settle(&mut self.held, ready);
        (Ok(()), None)
    }

    /// The records that are held are those of the source from scratch.
    fn records_are_right(&self)
        ensures { AreFromScratch self.now.state.source self.now.kept }
    {
        let _ = &self.held;
    }

    /// The users that are held are those of the source from scratch.
    fn users_are_right(&self)
        ensures { AreUsers self.now.state.source self.now.users }
    {
        let _ = &self.held;
    }

    /// The texts of a session read back as what it holds, and its source has no fault.
    #[tactic(auto, using(t1_held::proofs::HeldLaws::counts_checked, crate::proofs::StateLaws::held_checked))]
    fn reads_back(&self)
        ensures faultless { source_check self.now.state.source ≡ Ok tt }
        ensures source { reads (text self.now.state.source) ≡ Ok self.now.state.source }
        ensures pairs { pairs (kern self.now.state.pairs) ≡ Ok self.now.state.pairs }
    {
        text_of_source_read(&self.source);
        text_of_pairs_read(&self.pairs);
    }
}

/// Writes what is answered to a command that was performed, or refused; nothing where memory ran
/// out.
fn report<W: Write>(performed: Result<(), Cause>, out: &mut Counted<W>) -> Result<(), OutError>
    ensures { ReportsPerformed W.contents out.old out.new performed result }
{
    let answer = answer_of(performed)?;
    put_answer(out, &answer)?;
    Ok(())
}

impl<'a> Performer<'a> {
    pub fn of(session: Session<'a>) -> Performer<'a>
        ensures { result ≡ session.entry.state }
    {
        Performer { session }
    }

    /// Performs a command, and writes its answer. Where memory runs out nothing is written, and the
    /// session is as before, but for the batch of a commit.
    pub fn perform<W: Write>(
        &mut self,
        command: SessionCommand,
        out: &mut Counted<W>,
    ) -> Result<(), OutError>
        ensures { IsPerformed W.contents self.old self.new out.old out.new command result }
    {
        match command {
            SessionCommand::Edit(edit) => report(self.session.apply(edit), out),
            SessionCommand::Begin => report(self.session.begin(), out),
            SessionCommand::Commit => report(self.session.commit(), out),
            SessionCommand::Abort => report(self.session.abort(), out),
            SessionCommand::Print(print) => self.session.put_print(print, out),
            SessionCommand::Show(show) => self.session.put_show(show, out),
            SessionCommand::Broken(rule) => report(Err(Cause::Rule(rule)), out),
        }
    }
}

/// Writes an answer, and passes it on.
fn send<W: Write>(writer: &mut Counted<W>, answer: &Answer) -> Result<(), ServeError>
    ensures { Sends W.contents writer.old writer.new (answer_text answer.now) result }
{
    put_answer(writer, answer)?;
    writer.flush()?;
    Ok(())
}

/// Performs the command that was made, where there was the memory for it, and passes its answer on.
fn try_answer<W: Write>(
    session: &mut Performer,
    made: Result<SessionCommand, AllocError>,
    writer: &mut Counted<W>,
) -> Result<(), OutError>
    ensures performed { (wanted : SessionCommand)
        → Makes made wanted
        → IsPerformed W.contents session.old session.new writer.old writer.new wanted result }
    ensures flushed { IfOk result (λ done. writer.new.is_flushed ≡ true) }
{
    session.perform(made?, writer)?;
    writer.flush()?;
    Ok(())
}

/// Performs a command, and answers it, also where memory ran out.
pub fn answer_command<W: Write>(
    session: &mut Performer,
    made: Result<SessionCommand, AllocError>,
    writer: &mut Counted<W>,
) -> Result<(), ServeError>
    ensures { (wanted : SessionCommand)
        → Makes made wanted
        → AnswersCommand W.contents session.old session.new writer.old writer.new wanted result }
{
    match try_answer(session, made, writer) {
        Err(OutError::Memory) => send(writer, &Answer::OutOfMemory),
        answered => Ok(answered?),
    }
}
