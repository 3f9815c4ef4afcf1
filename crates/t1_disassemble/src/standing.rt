//! What a reader of the source makes of the private lines that are written: where it stands among
//! the sections, and which entry of the font it would lose, or read where the font has none.
ghost use Rattle.std.specs.Prelude.{◌≡◌, ◌<◌, ◌^◌, ◌++◌, [], codes, length, option_map, OnOk, Ok};
ghost use Rattle.std.specs.Prelude.{Err, MatchResult, List, ℕ, unwrap_or};
ghost use Rattle.t1_frac.specs.Ascii.{slash};
ghost use Rattle.t1_text.specs.Lines.{begins_with};
ghost use Rattle.t1_text.specs.Tokens.{tokens};
ghost use Rattle.t1_parts.specs.LenIV.{lead_of_token};
ghost use Rattle.t1_parts.specs.Sections.{subrs_line, glyphs_line};
ghost use Rattle.t1_disassemble.specs.Opened.{opening_of};
ghost use Rattle.t1_disassemble.specs.Standing.{fresh, losing, losing_maybe, taken_for, called};
ghost use Rattle.t1_disassemble.specs.Standing.{read_outside, outside_judged, wanted, entered};
ghost use Rattle.t1_disassemble.specs.Standing.{among_subrs, among_glyphs, plain_judged};
ghost use Rattle.t1_disassemble.specs.Standing.{line_judged, entry_stands, entry_judged};
ghost use Rattle.t1_disassemble.specs.Standing.{front_judged, text_judged};
ghost use Rattle.t1_disassemble.specs.Standing.{may_stand, lost_place, all_kept};
ghost use Rattle.t1_disassemble.specs.Standing.{is_no_reader, is_like_glyph, is_like_subr};
ghost use Rattle.t1_disassemble.specs.Standing.{is_like_entry, first_said, other_operator};
ghost use Rattle.t1_disassemble.specs.Standing.{other_lead, said_judged, unheard};
ghost use Rattle.t1_disassemble.specs.declared.standing.Part.{Part};
ghost use Rattle.t1_disassemble.specs.Stood.{prefixed, said_of, standing_of, is_other_byte};
ghost use Rattle.std.specs.List.{list_all};
ghost use Rattle.std.specs.Prelude.{true, None};

use crate::fault::{FontCode, FontFault, FontPlace};
use crate::layouts::is_closefile;
use crate::opening::Opening;
use crate::private::{Settings, cut_len};
use std::alloc::{AllocError, Global};
use t1_frac::Bytes;
use t1_parts::{count_between, holds, opens_glyph, opens_subr, operator_on};
use t1_text::{after_token, count_of, decimal_up_to, is_decimal, next_token, same};

/// Where the lines of a source stand: before its sections, among the Subrs, among the glyphs, or
/// behind a section line that a source can't have there.
#[derive(Clone, Copy, Debug)]
pub(crate) enum Part {
    Front,
    Subrs,
    Glyphs,
    Misplaced,
}

/// Whether the lines have said something, and whether what they say is other than what the font was
/// read by.
#[derive(Clone, Copy, Debug)]
struct Said {
    is_said: bool,
    is_other: bool,
}

/// The part that was come to, whether a section whose count is over 0 has no entry so far, what was
/// said of the reading operator and of lenIV, and whether an entry would be lost, with the name of
/// the first.
#[derive(Drop)]
pub(crate) struct Standing {
    part: Part,
    lacks_subrs: bool,
    lacks_glyphs: bool,
    reads: Said,
    leads: Said,
    is_lost: bool,
    lost: Vec<u8>,
}

/// Whether a token begins with a slash.
fn begins_name(token: &[u8]) -> bool
    ensures { result ≡ begins_with slash token.now }
{
    match token {
        [first, ..] => b'/' == *first,
        [] => false,
    }
}

/// What an entry is called whose head may go on with a token and those after it: whether it is a
/// Subr, and its name or number.
fn called<'a>(is_subr: bool, name: &'a [u8], token: &'a [u8], after: &'a [u8]) -> (bool, &'a [u8])
    ensures { prefixed result.0 result.1.now
        ≡ called (prefixed is_subr name.now) token.now (tokens after.now) }
{
    if begins_name(token) {
        return (false, token);
    }
    if let Some((next, _)) = next_token(after) {
        if same(token, b"dup") {
            return (true, next);
        }
    }
    (is_subr, name)
}

/// Whether a word is no reading operator, though it may stand behind a name and a number.
fn is_no_reader(word: &[u8]) -> bool
    ensures { result ≡ is_no_reader word.now }
{
    same(word, b"def") || same(word, b"array") || same(word, b"dict")
}

/// Whether a name goes on with a length and a word, as a glyph does whatever reads it.
fn is_like_glyph(name: &[u8], after: &[u8]) -> bool
    ensures { result ≡ is_like_glyph name.now (tokens after.now) }
{
    let Some((length, after)) = next_token(after) else {
        return false;
    };
    let Some((word, _)) = next_token(after) else {
        return false;
    };
    begins_name(name) && is_decimal(length) && !is_no_reader(word)
}

/// Whether `dup` goes on with a number, a length and a word, as a Subr does whatever reads it.
fn is_like_subr(dup: &[u8], after: &[u8]) -> bool
    ensures { result ≡ is_like_subr dup.now (tokens after.now) }
{
    let Some((number, after)) = next_token(after) else {
        return false;
    };
    let Some((length, after)) = next_token(after) else {
        return false;
    };
    let Some((word, _)) = next_token(after) else {
        return false;
    };
    same(dup, b"dup") && is_decimal(number) && is_decimal(length) && !is_no_reader(word)
}

/// Whether tokens are like an entry of the section in which they stand.
fn is_like_entry(part: Part, token: &[u8], after: &[u8]) -> bool
    ensures { result ≡ is_like_entry part token.now (tokens after.now) }
{
    match part {
        Part::Subrs => is_like_subr(token, after),
        Part::Glyphs => is_like_glyph(token, after),
        Part::Front | Part::Misplaced => false,
    }
}

/// What the entry is called whose reading operator is a token of a line, on which no entry opens,
/// or the entry that its tokens are like.
fn read_outside<'a>(operator: &[u8], part: Part, line: &'a [u8]) -> Option<(bool, &'a [u8])>
    ensures { option_map (λ found. prefixed found.0 found.1.now) result
        ≡ read_outside operator.now part [] (tokens line.now) }
{
    let mut is_subr = false;
    let mut name = line.split_at(0).0;
    let mut rest = line;
    while let Some((token, after)) = next_token(rest) {
        if same(token, operator) {
            return Some((is_subr, name));
        }
        let found = called(is_subr, name, token, after);
        if is_like_entry(part, token, after) {
            return Some(found);
        }
        is_subr = found.0;
        name = found.1;
        rest = after;
    }
    None
}

/// Whether neither a name begins with a byte, nor `dup`, nor a word that begins with the first.
fn is_other_byte(first: u8, byte: u8) -> bool
    ensures { result ≡ is_other_byte first byte }
{
    byte != b'/' && byte != b'd' && byte != first
}

/// Whether all bytes of a line are such.
fn has_other_bytes(first: u8, line: &[u8]) -> bool
    ensures { result ≡ list_all (is_other_byte first) line.now }
{
    line.iter().all(|byte| is_other_byte(first, *byte))
}

/// Whether a line has no byte with which a name, `dup` or an operator begins, as most closing
/// texts.
#[tactic(auto, using(crate::proofs::StandingLaws::line_quiet))]
fn is_quiet(operator: &[u8], line: &[u8]) -> bool
    ensures { (part : Part) (name : List ℕ) → result ≡ true
        → read_outside operator.now part name (tokens line.now) ≡ None }
{
    let Some((first, _more)) = operator.split_first() else {
        return false;
    };
    has_other_bytes(*first, line)
}

/// Whether the count is over 0 where a line is the Subrs line.
fn wants_subrs(line: &[u8]) -> Option<bool>
    requires { length line.now < 2 ^ 63 }
    ensures { result ≡ wanted subrs_line line.now }
{
    match count_between(b"/Subrs", b"array", line) {
        Some((_, count)) => Some(0 < count_of(count)),
        None => None,
    }
}

/// Whether the count is over 0 where a line is the CharStrings line.
fn wants_glyphs(line: &[u8]) -> Option<bool>
    requires { length line.now < 2 ^ 63 }
    ensures { result ≡ wanted glyphs_line line.now }
{
    match count_between(b"/CharStrings", b"dict", line) {
        Some((_, count)) => Some(0 < count_of(count)),
        None => None,
    }
}

/// What was said first counts.
fn first_said(said: Said, other: Option<bool>) -> Said
    ensures { said_of result ≡ first_said (said_of said) other }
{
    match other {
        Some(is_other) if !said.is_said => Said {
            is_said: true,
            is_other,
        },
        _ => said,
    }
}

/// Whether a line of the source says another operator.
fn other_operator(operator: &[u8], line: &[u8]) -> Option<bool>
    ensures { result ≡ other_operator operator.now line.now }
{
    if !holds(b"string currentfile", line) {
        return None;
    }
    match operator_on(line) {
        Some(name) => Some(!same(name, operator)),
        None => Some(!same(b"RD", operator)),
    }
}

/// The number that is said of lenIV; 4 where it isn't one from 0 to 64.
fn lead_of(said: Option<&[u8]>) -> u32
    ensures { result
        ≡ unwrap_or (lead_of_token (option_map (λ token. token.now) said.entry)) 4 }
{
    match said {
        Some(token) => decimal_up_to(64, token).unwrap_or(4),
        None => 4,
    }
}

/// Whether a line of the source says another number of leading bytes.
fn other_lead(lead: u8, line: &[u8]) -> Option<bool>
    ensures { result ≡ other_lead lead line.now }
{
    match after_token(b"/lenIV", line) {
        Some(said) => Some(lead_of(said) != u32::from(lead)),
        None => None,
    }
}

/// Whether an entry is a glyph.
fn is_glyph(opening: &Opening) -> bool
    ensures { result ≡ begins_with slash (opening_of opening.now).name }
{
    !opening.is_subr && begins_name(opening.name)
}

/// Whether an entry, a glyph or a Subr, may stand in a part.
fn may_stand(part: Part, is_glyph: bool) -> bool
    ensures { (name : List ℕ) → is_glyph ≡ begins_with slash name → result ≡ may_stand part name }
{
    match part {
        Part::Front => false,
        Part::Subrs => !is_glyph,
        Part::Glyphs => is_glyph,
        Part::Misplaced => true,
    }
}

impl Standing {
    /// Before the first line of a font that is read so; where nothing is said, it is RD and 4.
    pub(crate) fn new(alloc: Global, settings: &Settings) -> Standing
        ensures { standing_of result ≡ fresh settings.now.operator.now settings.now.lead }
    {
        Standing {
            part: Part::Front,
            lacks_subrs: false,
            lacks_glyphs: false,
            reads: Said {
                is_said: false,
                is_other: !same(settings.operator, b"RD"),
            },
            leads: Said {
                is_said: false,
                is_other: settings.lead != 4,
            },
            is_lost: false,
            lost: Vec::new(alloc),
        }
    }

    /// An entry would be lost: a Subr or a glyph.
    fn lose(&mut self, is_subr: bool, name: &[u8]) -> Result<(), AllocError>
        ensures { OnOk result (standing_of self.new
            ≡ losing (prefixed is_subr name.now) (standing_of self.old)) }
    {
        if self.is_lost {
            return Ok(());
        }
        self.is_lost = true;
        self.lost.clear();
        if is_subr {
            self.lost.extend_from_slice(b"dup ")?;
        }
        self.lost.extend_from_slice(name)
    }

    /// A line is judged that a reader may take for an entry.
    fn judge_taken(&mut self, line: &[u8]) -> Result<(), AllocError>
        ensures { OnOk result (standing_of self.new
            ≡ losing_maybe (taken_for self.old.part line.now) (standing_of self.old)) }
    {
        match self.part {
            Part::Subrs => {
                if let Some(number) = opens_subr(line) {
                    return self.lose(true, number);
                }
            }
            Part::Glyphs => {
                if let Some(name) = opens_glyph(line) {
                    return self.lose(false, name);
                }
            }
            Part::Front | Part::Misplaced => {}
        }
        Ok(())
    }

    /// A line is judged that may hold a reading operator, outside each entry's head.
    fn judge_outside(&mut self, operator: &[u8], line: &[u8]) -> Result<(), AllocError>
        ensures { OnOk result (standing_of self.new
            ≡ outside_judged operator.now (standing_of self.old) line.now) }
    {
        if is_quiet(operator, line) {
            return Ok(());
        }
        match read_outside(operator, self.part, line) {
            Some((is_subr, name)) => self.lose(is_subr, name),
            None => Ok(()),
        }
    }

    /// A Subrs line is come to.
    fn enter_subrs(&mut self, lacks: bool)
        ensures { standing_of self.new
            ≡ among_subrs self.old.part (standing_of self.old) lacks }
    {
        match self.part {
            Part::Front => {
                self.part = Part::Subrs;
                self.lacks_subrs = lacks;
            }
            Part::Subrs | Part::Glyphs | Part::Misplaced => self.part = Part::Misplaced,
        }
    }

    /// A CharStrings line is come to.
    fn enter_glyphs(&mut self, lacks: bool)
        ensures { standing_of self.new
            ≡ among_glyphs self.old.part (standing_of self.old) lacks }
    {
        match self.part {
            Part::Front | Part::Subrs => {
                self.part = Part::Glyphs;
                self.lacks_glyphs = lacks;
            }
            Part::Glyphs | Part::Misplaced => self.part = Part::Misplaced,
        }
    }

    /// A line is come to that may say something of the reading operator and of lenIV.
    fn hear(&mut self, settings: &Settings, line: &[u8])
        ensures { standing_of self.new
            ≡ said_judged settings.now.operator.now settings.now.lead (standing_of self.old)
            line.now }
    {
        self.reads = first_said(self.reads, other_operator(settings.operator, line));
        self.leads = first_said(self.leads, other_lead(settings.lead, line));
    }

    /// A section line is come to, of which no reader of the source hears what it says of the
    /// reading operator or lenIV.
    fn leave_unheard(&mut self, line: &[u8])
        ensures { standing_of self.new ≡ unheard (standing_of self.old) line.now }
    {
        let reads = if holds(b"string currentfile", line) {
            Some(true)
        } else {
            None
        };
        let leads = if after_token(b"/lenIV", line).is_some() {
            Some(true)
        } else {
            None
        };
        self.reads = first_said(self.reads, reads);
        self.leads = first_said(self.leads, leads);
    }

    /// A line is come to, which may be a Subrs line, a CharStrings line or both.
    fn enter(&mut self, settings: &Settings, line: &[u8], subrs: Option<bool>, glyphs: Option<bool>)
        ensures { standing_of self.new
            ≡ entered settings.now.operator.now settings.now.lead (standing_of self.old) line.now
            subrs glyphs }
    {
        match (subrs, glyphs) {
            (None, None) => self.hear(settings, line),
            (Some(lacks), None) => {
                self.leave_unheard(line);
                self.enter_subrs(lacks);
            }
            (None, Some(lacks)) => {
                self.leave_unheard(line);
                self.enter_glyphs(lacks);
            }
            (Some(_), Some(_)) => self.part = Part::Misplaced,
        }
    }

    /// A line of the source is judged that is no closing text.
    fn judge_plain(&mut self, settings: &Settings, line: &[u8]) -> Result<(), AllocError>
        requires { length line.now < 2 ^ 63 }
        ensures { OnOk result (standing_of self.new
            ≡ plain_judged settings.now.operator.now settings.now.lead (standing_of self.old)
            line.now) }
    {
        self.judge_taken(line)?;
        self.enter(settings, line, wants_subrs(line), wants_glyphs(line));
        self.judge_outside(settings.operator, line)
    }

    /// A line is judged, or the closing text of an entry that waits for it.
    pub(crate) fn judge_line(
        &mut self,
        settings: &Settings,
        waits: bool,
        line: &[u8],
    ) -> Result<(), AllocError>
        requires { length line.now < 2 ^ 63 }
        ensures { OnOk result (standing_of self.new
            ≡ line_judged settings.now.operator.now settings.now.lead waits
            (standing_of self.old) line.now) }
    {
        if waits {
            return self.judge_outside(settings.operator, line);
        }
        if is_closefile(line) {
            self.hear(settings, line);
            return self.judge_outside(settings.operator, line);
        }
        self.judge_plain(settings, line)
    }

    /// What is cut off before a section's name is judged, which doesn't close the encrypted part.
    fn judge_cut(
        &mut self,
        settings: &Settings,
        waits: bool,
        front: &[u8],
    ) -> Result<(), AllocError>
        requires { length front.now < 2 ^ 63 }
        ensures { OnOk result (standing_of self.new
            ≡ front_judged settings.now.operator.now settings.now.lead waits
            (standing_of self.old) front.now) }
    {
        self.judge_line(settings, waits, front)?;
        if is_closefile(front) {
            return self.lose(false, b"");
        }
        Ok(())
    }

    /// A line is judged, with what stands before a section's name cut off where that has to be.
    pub(crate) fn judge_text(
        &mut self,
        settings: &Settings,
        waits: bool,
        line: &[u8],
    ) -> Result<(), AllocError>
        requires { length line.now < 2 ^ 63 }
        ensures { OnOk result (standing_of self.new
            ≡ text_judged settings.now.operator.now settings.now.lead waits
            (standing_of self.old) line.now) }
    {
        let Some(len) = cut_len(waits, line) else {
            return self.judge_line(settings, waits, line);
        };
        let (front, section) = line.split_at(len);
        self.judge_cut(settings, waits, front)?;
        self.judge_line(settings, false, section)
    }

    /// An entry is come to.
    fn stand(&mut self, opening: &Opening) -> Result<(), AllocError>
        ensures { OnOk result (standing_of self.new
            ≡ entry_stands (opening_of opening.now).name (standing_of self.old)) }
    {
        let is_glyph = is_glyph(opening);
        self.lacks_subrs = self.lacks_subrs && is_glyph;
        self.lacks_glyphs = self.lacks_glyphs && !is_glyph;
        if may_stand(self.part, is_glyph) {
            return Ok(());
        }
        self.lose(opening.is_subr, opening.name)
    }

    /// An entry is judged behind what stands on its line before it.
    #[tactic(auto, using(crate::proofs::StandingLaws::stands_first))]
    pub(crate) fn judge_entry(
        &mut self,
        settings: &Settings,
        waits: bool,
        front: &[u8],
        opening: &Opening,
    ) -> Result<(), AllocError>
        requires { length front.now < 2 ^ 63 }
        ensures { OnOk result (standing_of self.new
            ≡ entry_judged settings.now.operator.now settings.now.lead waits
            (standing_of self.old) front.now (opening_of opening.now).name) }
    {
        if front.is_empty() {
            return self.stand(opening);
        }
        self.judge_text(settings, waits, front)?;
        if is_closefile(front) {
            self.lose(opening.is_subr, opening.name)?;
        }
        self.stand(opening)
    }

    /// The first fault of what was judged.
    #[tactic(auto, unfolding(crate::specs::Standing::all_kept))]
    pub(crate) fn check(self) -> Result<(), FontFault>
        ensures { MatchResult
            result
            (λ _. all_kept (standing_of self) ≡ Ok tt)
            (λ fault. all_kept (standing_of self) ≡ Err fault) }
    {
        if self.is_lost {
            return Err(FontFault {
                code: FontCode::D14,
                place: lost_place(self.lost),
            });
        }
        if self.lacks_subrs {
            return Err(FontFault {
                code: FontCode::D15,
                place: FontPlace::Nowhere,
            });
        }
        if self.lacks_glyphs {
            return Err(FontFault {
                code: FontCode::D16,
                place: FontPlace::Nowhere,
            });
        }
        if self.reads.is_other || self.leads.is_other {
            return Err(FontFault {
                code: FontCode::D17,
                place: FontPlace::Nowhere,
            });
        }
        Ok(())
    }
}

/// The place of an entry whose name may be unknown.
fn lost_place(name: Vec<u8>) -> FontPlace
    ensures { result ≡ lost_place name.items }
{
    if name.is_empty() {
        return FontPlace::Nowhere;
    }
    FontPlace::Entry(Bytes::new(name))
}
