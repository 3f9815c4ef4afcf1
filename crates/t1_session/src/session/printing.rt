//! What a session prints and shows.
ghost use Rattle.std.specs.Prelude.{◌≡◌, ◌≤◌, ◌-◌, ◌^◌, Ok, IfOk, option_map};
ghost use Rattle.t1_pairs.specs.Kerning.{kern};
ghost use Rattle.t1_parts.specs.Printing.{text};
ghost use Rattle.t1_code.specs.Parts.{Prints};
ghost use Rattle.t1_font.specs.FontMetrics.{metrics_of};
ghost use Rattle.t1_font.specs.MeasuredGlyphs.{MeasuredFont};
ghost use Rattle.t1_font.specs.SourceChecks.{measured_source};
ghost use Rattle.t1_commands.specs.declared.print.Print.TheVariants as prints;
ghost use Rattle.t1_session.specs.FromScratch.{blocks_from_scratch, encoding_from_scratch};
ghost use Rattle.t1_session.specs.FromScratch.{glyph_from_scratch, metrics_from_scratch};
ghost use Rattle.t1_session.specs.FromScratch.{metrics_line_from_scratch, outline_from_scratch};
ghost use Rattle.t1_session.specs.FromScratch.{pfa_from_scratch, pfb_from_scratch};
ghost use Rattle.t1_session.specs.FromScratch.{subr_from_scratch, uses_from_scratch};
ghost use Rattle.t1_commands.specs.Blocks.{block_size};
ghost use Rattle.t1_commands.specs.declared.answer.Answer.TheVariants as answers;
ghost use Rattle.t1_commands.specs.AnswerTexts.{answer_text};
ghost use Rattle.t1_session.specs.Machine.{blocks_answer, file_answer, found_answer};
ghost use Rattle.t1_session.specs.Machine.{printed, shown_answer};
ghost use Rattle.t1_session.specs.Outcomes.{AnswersNoFault, Finds};
ghost use Rattle.t1_session.specs.Refusing.{refused_text};
ghost use Rattle.t1_session.specs.Reruns.{IsSameButForRuns, RunsForOutline};
ghost use Rattle.t1_session.specs.Users.{AreUsers};

use crate::encoding::encoding_text;
use crate::entries::{entry_text, subr_numbered};
use crate::metrics_line::metrics_line;
use crate::refused::refused_text;
use crate::session::Session;
use std::alloc::AllocError;
use std::io::Write;
use t1_afm::{Metrics, write_afm};
use t1_code::{BlockSize, Counted, OutError, Pfa, Pfb, WHOLE_PARTS};
use t1_commands::{Answer, Data, Print, Show, block_size, put_answer};
use t1_font::{MeasuredGlyphs, afm_text, usage_text};
use t1_frac::Bytes;
use t1_held::{held_metrics, write_held_file};
use t1_outline::glyph_outline;
use t1_outline::laws::a_source_shows_its_outlines;
use t1_refusal::glyph_named;
use t1_rerun::recorded_metrics;
use t1_source::Rule;

impl<'a> Session<'a> {
    /// The metrics of the glyphs.
    fn glyphs(&self) -> Result<MeasuredGlyphs<'_>, AllocError>
        ensures { IfOk result (λ glyphs. measured_source self.now.state.source ≡ Ok glyphs) }
    {
        held_metrics(self.alloc, &self.held)
    }

    /// What the AFM file says.
    fn metrics(&self) -> Result<Metrics<'_>, AllocError>
        ensures { IfOk result
            (λ metrics.
            (font : MeasuredFont)
            → measured_source self.now.state.source ≡ Ok font
            → metrics ≡ metrics_of self.now.state.source self.now.state.pairs font) }
    {
        recorded_metrics(self.alloc, &self.source, &self.pairs, &self.held.records)
    }

    /// Writes the PFB file: that of the printed source and pairs from scratch.
    #[tactic(auto, using(crate::proofs::StateLaws::pfb_checked))]
    pub fn print_pfb<W: Write>(&self, out: &mut Counted<W>) -> Result<(), OutError>
        ensures prints { Prints W.contents out.old out.new (pfb_from_scratch self.now.state)
            result }
        ensures no_fault { AnswersNoFault result }
    {
        self.reads_back();
        let size = BlockSize::new(WHOLE_PARTS);
        write_held_file(self.alloc, &self.held, &self.source, &Pfb { size }, out)
    }

    /// Writes the PFB file in segments of so many bytes, the last of a part with the rest: that of
    /// the printed source from scratch.
    #[tactic(auto, using(crate::proofs::StateLaws::blocks_scratch))]
    pub fn print_pfb_blocks<W: Write>(
        &self,
        size: usize,
        out: &mut Counted<W>,
    ) -> Result<(), OutError>
        requires some { 1 ≤ size }
        requires short { size ≤ 2 ^ 31 - 1 }
        ensures prints { Prints W.contents out.old out.new (blocks_from_scratch size self.now.state)
            result }
        ensures no_fault { AnswersNoFault result }
    {
        self.reads_back();
        let size = BlockSize::new(size);
        write_held_file(self.alloc, &self.held, &self.source, &Pfb { size }, out)
    }

    /// Writes the PFA file: that of the printed source from scratch.
    #[tactic(auto, using(crate::proofs::StateLaws::pfa_scratch))]
    pub fn print_pfa<W: Write>(&self, out: &mut Counted<W>) -> Result<(), OutError>
        ensures prints { Prints W.contents out.old out.new (pfa_from_scratch self.now.state)
            result }
        ensures no_fault { AnswersNoFault result }
    {
        self.reads_back();
        write_held_file(self.alloc, &self.held, &self.source, &Pfa, out)
    }

    /// Writes the AFM file: that of the printed source and pairs from scratch.
    pub fn print_afm<W: Write>(&self, out: &mut Counted<W>) -> Result<(), OutError>
        ensures prints { Prints W.contents out.old out.new (metrics_from_scratch self.now.state)
            result }
        ensures no_fault { AnswersNoFault result }
    {
        self.reads_back();
        let metrics = self.metrics()?;
        write_afm(&metrics, out)
    }

    /// Writes the usage table: that of the printed source from scratch.
    #[tactic(auto, using(crate::proofs::StateLaws::uses_scratch))]
    pub fn print_uses<W: Write>(&self, out: &mut Counted<W>) -> Result<(), OutError>
        ensures prints { Prints W.contents out.old out.new (uses_from_scratch self.now.state)
            result }
        ensures no_fault { AnswersNoFault result }
    {
        self.reads_back();
        let glyphs = self.glyphs()?;
        let text = usage_text(self.alloc, glyphs.metrics())?;
        put_text(&text, out)
    }

    /// Writes the source in its printed form.
    pub fn print_source<W: Write>(&self, out: &mut Counted<W>) -> Result<(), OutError>
        ensures prints { Prints W.contents out.old out.new (Ok (text self.now.state.source))
            result }
        ensures no_fault { AnswersNoFault result }
    {
        let text = self.source.text()?;
        put_text(&text, out)
    }

    /// Writes the pairs in their printed form.
    pub fn print_kern<W: Write>(&self, out: &mut Counted<W>) -> Result<(), OutError>
        ensures prints { Prints W.contents out.old out.new (Ok (kern self.now.state.pairs)) result }
        ensures no_fault { AnswersNoFault result }
    {
        let text = self.pairs.text()?;
        put_text(&text, out)
    }

    /// The words of a glyph, in the lines that the printed source has; none where there is no
    /// glyph of this name.
    pub fn show_glyph(&self, name: &[u8]) -> Result<Option<Vec<u8>>, AllocError>
        ensures { Finds result (glyph_from_scratch name.now self.now.state) }
    {
        self.reads_back();
        entry_text(self.alloc, glyph_named(self.source.items(), name))
    }

    /// The words of a Subr, in the lines that the printed source has; none where there is no Subr
    /// of this number.
    pub fn show_subr(&self, number: i64) -> Result<Option<Vec<u8>>, AllocError>
        ensures { Finds result (subr_from_scratch number self.now.state) }
    {
        self.reads_back();
        entry_text(self.alloc, subr_numbered(self.source.items(), number))
    }

    /// The line of a glyph in the AFM file, with its end; none where there is no glyph of this
    /// name. It is made of the glyph's record, and no other glyph is looked at.
    pub fn show_metrics(&self, name: &[u8]) -> Result<Option<Vec<u8>>, AllocError>
        ensures { Finds result (metrics_line_from_scratch name.now self.now.state) }
    {
        self.reads_back();
        metrics_line(self.alloc, &self.source, &self.held.records, name)
    }

    /// The outline of a glyph with its parts, a line each: `M x y` where a segment doesn't begin
    /// where the last one ended, `L x y`, `C x y x y x y`; none where there is no glyph of this
    /// name. The glyph and its parts are run and counted, each as often as it is drawn; nothing
    /// else changes.
    pub fn show_outline(&mut self, name: &[u8]) -> Result<Option<Vec<u8>>, AllocError>
        ensures shown { Finds result (outline_from_scratch name.now self.old.state) }
        ensures same { IsSameButForRuns self.old self.new }
        ensures runs { RunsForOutline name.now self.old result self.new }
    {
        self.reads_back();
        a_source_shows_its_outlines();
        match glyph_outline(self.alloc, &self.held.records, name, &mut self.meter) {
            Ok(found) => Ok(found),
            // The source has no fault, and so no outline has one.
            Err(_) => Err(AllocError),
        }
    }

    /// The codes that have a name, each with it on a line, as `65 A`, by code.
    pub fn show_encoding(&self) -> Result<Vec<u8>, AllocError>
        ensures { IfOk result (λ text. encoding_from_scratch self.now.state ≡ Ok text.items) }
    {
        self.reads_back();
        encoding_text(self.alloc, &self.source)
    }

    /// What is told of what was refused last, in lines: the rule; or code and place of the first
    /// fault, the word that has it, with its number, as `word 4 moveto`, and the way of the run
    /// that met it, as `in glyph V, subr 4`. Nothing where nothing was refused since an edit, a
    /// `begin`, a `commit` or an `abort` was accepted. Of an edit it costs about what the edit did;
    /// of a `commit`, a check of the source that was refused. No run is counted.
    pub fn show_refusal(&mut self) -> Result<Vec<u8>, AllocError>
        ensures shown { IfOk result (λ text. text.items ≡ refused_text self.old.state.source
            self.old.state.pairs self.old.state.refused) }
        ensures same { self.new.state ≡ self.old.state }
        ensures kept { self.new.kept ≡ self.old.kept }
        ensures users { AreUsers self.new.state.source self.new.users }
        ensures runs { self.new.runs ≡ self.old.runs }
    {
        let text = refused_text(
            self.alloc,
            &self.source,
            &self.pairs,
            &mut self.held,
            &self.refused,
        );
        self.users_are_right();
        text
    }

    /// Writes the PFB file as the data of an answer. No file is made in memory.
    fn put_pfb<W: Write>(&self, size: BlockSize, out: &mut Counted<W>) -> Result<(), OutError>
        ensures { Prints W.contents out.old out.new
            (Ok (answer_text (file_answer (blocks_from_scratch size self.now.state)))) result }
    {
        self.reads_back();
        let form = Data { form: Pfb { size } };
        write_held_file(self.alloc, &self.held, &self.source, &form, out)
    }

    /// Writes the PFB file as the data of an answer, a segment a part.
    #[tactic(auto, using(crate::proofs::StateLaws::blocks_in_one))]
    fn put_whole_pfb<W: Write>(&self, out: &mut Counted<W>) -> Result<(), OutError>
        ensures { Prints W.contents out.old out.new
            (Ok (answer_text (printed self.now.state prints.Pfb))) result }
    {
        self.reads_back();
        self.put_pfb(BlockSize::new(WHOLE_PARTS), out)
    }

    /// Writes what a print in segments of so many bytes is answered.
    fn put_blocks<W: Write>(&self, number: i64, out: &mut Counted<W>) -> Result<(), OutError>
        ensures { Prints W.contents out.old out.new
            (Ok (answer_text (blocks_answer self.now.state (block_size number)))) result }
    {
        match block_size(number) {
            Some(size) => self.put_pfb(size, out),
            None => Ok(put_answer(out, &Answer::Broken(Rule::E4))?),
        }
    }

    /// Writes the PFA file as the data of an answer. No file is made in memory.
    fn put_pfa<W: Write>(&self, out: &mut Counted<W>) -> Result<(), OutError>
        ensures { Prints W.contents out.old out.new
            (Ok (answer_text (printed self.now.state prints.Pfa))) result }
    {
        self.reads_back();
        let form = Data { form: Pfa };
        write_held_file(self.alloc, &self.held, &self.source, &form, out)
    }

    /// The AFM file.
    fn metrics_text(&self) -> Result<Vec<u8>, AllocError>
        ensures { IfOk result
            (λ text. printed self.now.state prints.Afm ≡ answers.Data text.items) }
    {
        self.reads_back();
        let metrics = self.metrics()?;
        afm_text(self.alloc, &metrics)
    }

    /// The usage table.
    fn uses_text(&self) -> Result<Vec<u8>, AllocError>
        ensures { IfOk result
            (λ text. printed self.now.state prints.Uses ≡ answers.Data text.items) }
    {
        self.reads_back();
        let glyphs = self.glyphs()?;
        usage_text(self.alloc, glyphs.metrics())
    }

    /// Writes what a print is answered. All that takes memory is there before any of it is written.
    pub(crate) fn put_print<W: Write>(
        &self,
        print: Print,
        out: &mut Counted<W>,
    ) -> Result<(), OutError>
        ensures { Prints W.contents out.old out.new
            (Ok (answer_text (printed self.now.state print))) result }
    {
        match print {
            Print::Source => put_data(self.source.text()?, out),
            Print::Kern => put_data(self.pairs.text()?, out),
            Print::Pfb => self.put_whole_pfb(out),
            Print::Blocks(number) => self.put_blocks(number, out),
            Print::Pfa => self.put_pfa(out),
            Print::Afm => put_data(self.metrics_text()?, out),
            Print::Uses => put_data(self.uses_text()?, out),
        }
    }

    /// Writes what a query is answered. All that takes memory is there before any of it is written.
    pub(crate) fn put_show<W: Write>(
        &mut self,
        show: Show,
        out: &mut Counted<W>,
    ) -> Result<(), OutError>
        ensures prints { Prints W.contents out.old out.new
            (Ok (answer_text (shown_answer self.old.state show))) result }
        ensures same { self.new.state ≡ self.old.state }
    {
        match show {
            Show::Glyph(name) => put_found(self.show_glyph(name.as_slice())?, out),
            Show::Subr(number) => put_found(self.show_subr(number)?, out),
            Show::Metrics(name) => put_found(self.show_metrics(name.as_slice())?, out),
            Show::Outline(name) => put_found(self.show_outline(name.as_slice())?, out),
            Show::Encoding => put_data(self.show_encoding()?, out),
            Show::Refusal => put_data(self.show_refusal()?, out),
        }
    }
}

/// Writes a text that was asked for as the data of an answer; E1 where there is none.
fn put_found<W: Write>(found: Option<Vec<u8>>, out: &mut Counted<W>) -> Result<(), OutError>
    ensures { Prints W.contents out.old out.new
        (Ok (answer_text (found_answer (option_map (λ text. text.items) found)))) result }
{
    match found {
        Some(text) => put_data(text, out),
        None => Ok(put_answer(out, &Answer::Broken(Rule::E1))?),
    }
}

/// Writes a text as the data of an answer.
fn put_data<W: Write>(text: Vec<u8>, out: &mut Counted<W>) -> Result<(), OutError>
    ensures { Prints W.contents out.old out.new (Ok (answer_text (answers.Data text.items)))
        result }
{
    put_answer(out, &Answer::Data(Bytes::new(text)))?;
    Ok(())
}

/// Writes a text.
fn put_text<W: Write>(text: &[u8], out: &mut Counted<W>) -> Result<(), OutError>
    ensures { Prints W.contents out.old out.new (Ok text.now) result }
{
    out.put_all(text)?;
    Ok(())
}
