//! What printing and reading have to do with each other.

ghost use Rattle.std.specs.Prelude.{◌≡◌, ◌≤◌, ◌<◌, ◌^◌, ◌+◌, ℕ, List, ◌∷◌, ◌++◌, Some, true, false};
ghost use Rattle.std.specs.Prelude.{Ok, pos, codes, decimal, length, map};
ghost use Rattle.std.specs.List.{list_all, list_any};
ghost use Rattle.t1_frac.specs.Ascii.{slash};
ghost use Rattle.t1_text.specs.Lines.{lines, joined, is_line, trimmed};
ghost use Rattle.t1_parts.specs.declared.item.Item.{Item};
ghost use Rattle.t1_parts.specs.declared.item.Item.TheVariants.{Subr, Glyph};
ghost use Rattle.t1_parts.specs.Counts.{glyphs_needed, raised};
ghost use Rattle.t1_parts.specs.LenIV.{lead};
ghost use Rattle.t1_parts.specs.Parts.{tail_of};
ghost use Rattle.t1_text.specs.Names.{is_name};
ghost use Rattle.t1_parts.specs.Sections.{is_subrs_line, is_glyphs_line};
ghost use Rattle.t1_parts.specs.Entries.{NumberedItem, has_numbered, is_subr, is_glyph, is_word};
ghost use Rattle.t1_parts.specs.Entries.{body_of};
ghost use Rattle.t1_parts.specs.Private.{item_in_front};
ghost use Rattle.t1_parts.specs.SourceParts.{SourceParts};
ghost use Rattle.t1_parts.specs.Reading.{reads};
ghost use Rattle.t1_parts.specs.Printing.{body_line, last_line, word_groups, text};
ghost use Rattle.t1_source.specs.WellFormed.{IsWellFormed, is_counted};
ghost use Rattle.t1_source.specs.declared.edit.Edit.{Edit};
ghost use Rattle.t1_source.specs.declared.edit.Edit.TheVariants.{LenIv};
ghost use Rattle.t1_source.specs.Editing.{edited, is_subr_entry};
ghost use Rattle.t1_pairs.specs.declared.pairs.Pair.{Pair};

use crate::source::Source;

/// Lines that are joined are cut as they were.
pub fn joined_lines_cut()
    ensures { (ls : List (List ℕ)) → list_all is_line ls ≡ true → lines (joined ls) ≡ ls }
{}

/// A printed body is read as it was, whatever follows it.
pub fn printed_body_read()
    ensures { (ws : List (List ℕ)) (closing : List ℕ) (ls : List (List ℕ))
        → list_all is_word ws ≡ true
        → trimmed closing ≡ closing
        → body_of (map body_line (word_groups ws) ++ last_line closing ∷ ls)
        ≡ Some (record { words = ws; closing = closing; more = length (word_groups ws) }) }
{}

/// A Subr that is printed is read as it was, whatever follows it, where no earlier one has its
/// number.
pub fn printed_subr_read()
    ensures { (earlier : List NumberedItem) (n : ℕ) (ws : List (List ℕ)) (closing : List ℕ)
        (ls : List (List ℕ))
        → has_numbered is_glyphs_line earlier ≡ false
        → has_numbered is_subrs_line earlier ≡ true
        → has_numbered (is_subr n) earlier ≡ false
        → n ≤ 32000
        → list_all is_word ws ≡ true
        → trimmed closing ≡ closing
        → item_in_front earlier (codes "dup " ++ (decimal n ++ codes " {"))
        (map body_line (word_groups ws) ++ last_line closing ∷ ls)
        ≡ Ok (Subr n ws closing, 1 + length (word_groups ws)) }
{}

/// A glyph that is printed is read as it was, whatever follows it, where no earlier one has its
/// name.
pub fn printed_glyph_read()
    ensures { (earlier : List NumberedItem) (g : List ℕ) (ws : List (List ℕ)) (closing : List ℕ)
        (ls : List (List ℕ))
        → has_numbered is_glyphs_line earlier ≡ true
        → has_numbered (is_glyph g) earlier ≡ false
        → is_name g ≡ true
        → list_all is_word ws ≡ true
        → trimmed closing ≡ closing
        → item_in_front earlier (slash ∷ (g ++ codes " {"))
        (map body_line (word_groups ws) ++ last_line closing ∷ ls)
        ≡ Ok (Glyph g ws closing, 1 + length (word_groups ws)) }
{}

/// Counts that are raised to what is needed need no further raising.
pub fn raised_counts_stay()
    ensures { (items : List Item) → raised (raised items) ≡ raised items }
{}

/// A tail that was kept is kept as it is.
pub fn kept_tail_stays()
    ensures { (ls : List (List ℕ)) → tail_of (tail_of ls) ≡ tail_of ls }
{}

/// A source that is kept, and whose counts have at most nine digits, is read from its text as it
/// was.
pub fn printed_source_read()
    ensures { (s : SourceParts)
        → IsWellFormed s
        → list_all is_counted s.items ≡ true
        → reads (text s) ≡ Ok s }
{}

/// A source that was read is kept.
pub fn read_source_is_well_formed()
    ensures { (bytes : List ℕ) (s : SourceParts) → reads bytes ≡ Ok s → IsWellFormed s }
{}

/// A source that is kept is kept through every edit.
pub fn edited_source_is_well_formed()
    ensures { (s made : SourceParts) (ps others : List Pair) (edit : Edit)
        → IsWellFormed s
        → edited s ps edit ≡ Ok (made, others)
        → IsWellFormed made }
{}

/// An edit of lenIV leaves a source that says it.
pub fn edited_lead_is_said()
    ensures { (s made : SourceParts) (ps others : List Pair) (n : ℕ)
        → IsWellFormed s
        → edited s ps (LenIv (pos n)) ≡ Ok (made, others)
        → lead made ≡ n }
{}

/// A source that was read, of fewer than 1,000,000,000 glyphs, is read from its text as it was.
pub fn read_source_again()
    ensures { (bytes : List ℕ) (s : SourceParts)
        → reads bytes ≡ Ok s
        → glyphs_needed s.items < 10 ^ 9
        → reads (text s) ≡ Ok s }
{}

/// An edit leaves counts of at most nine digits, where there are fewer than 1,000,000,000 glyphs
/// after it.
pub fn edited_counts_small()
    ensures { (s made : SourceParts) (ps others : List Pair) (edit : Edit)
        → IsWellFormed s
        → list_all is_counted s.items ≡ true
        → edited s ps edit ≡ Ok (made, others)
        → glyphs_needed made.items < 10 ^ 9
        → list_all is_counted made.items ≡ true }
{}

/// In a source that is kept no Subr stands after a glyph.
pub fn subrs_stand_first()
    ensures { (s : SourceParts) (a b : List Item) (g : List ℕ) (ws : List (List ℕ))
        (closing : List ℕ)
        → IsWellFormed s
        → s.items ≡ a ++ Glyph g ws closing ∷ b
        → list_any is_subr_entry b ≡ false }
{}

/// A source is kept: it was read or edited.
pub fn source_is_well_formed(source: &Source)
    ensures { IsWellFormed source.now }
{
    let _items = source.kept_items();
}

/// The text of a source, whose counts have at most nine digits, is read as the source.
pub fn text_of_source_read(source: &Source)
    ensures { list_all is_counted source.now.items ≡ true
        → reads (text source.now) ≡ Ok source.now }
{
    let _items = source.kept_items();
}
