//! Laws of what is read back from a font's file.
ghost use Rattle.std.specs.Prelude.{◌≡◌, ℕ, ◌<◌, ◌≤◌, ◌*◌, ◌^◌, false, Ok, List, [], ◌∷◌, ◌++◌};
ghost use Rattle.std.specs.Prelude.{length, map};
ghost use Rattle.std.specs.List.{flat_map, AllByRecursion};
ghost use Rattle.t1_frac.specs.Ascii.{line_feed};
ghost use Rattle.t1_code.specs.declared.command.Command.{Command};
ghost use Rattle.t1_code.specs.Charstring.{AllFit, SpellsAll};
ghost use Rattle.t1_code.specs.Cipher.{cipher, eexec, encrypted_charstring};
ghost use Rattle.t1_code.specs.Pfa.{hexadecimal_lines, pfa};
ghost use Rattle.t1_code.specs.Pfb.{ascii_segment, binary_segment, marker, pfb, segment};
ghost use Rattle.t1_code.specs.Words.{commands_of_words};
ghost use Rattle.t1_parts.specs.declared.item.Item.{Item};
ghost use Rattle.t1_parts.specs.declared.item.Item.TheVariants.{Plain};
ghost use Rattle.t1_parts.specs.Parts.{tail_of};
ghost use Rattle.t1_parts.specs.Printing.{text};
ghost use Rattle.t1_text.specs.Lines.{begins_with, lines, joined};
ghost use Rattle.t1_disassemble.specs.CommandWords.{command_word};
ghost use Rattle.t1_disassemble.specs.Decipher.{deciphered, decrypted_charstring};
ghost use Rattle.t1_disassemble.specs.Decipher.{decrypted_private};
ghost use Rattle.t1_disassemble.specs.Digits.{digit_bytes, after_digits};
ghost use Rattle.t1_disassemble.specs.Disassembly.{disassembled};
ghost use Rattle.t1_disassemble.specs.Laws.{blocks_bytes, raw_file, plain_item, items_text};
ghost use Rattle.t1_disassemble.specs.Laws.{IsBlock, IsEnd};
ghost use Rattle.t1_disassemble.specs.Laws.{AreBytes, IsReadBack};
ghost use Rattle.t1_disassemble.specs.SegmentsRead.{font_parts};
ghost use Rattle.t1_disassemble.specs.Words.{words_of};

/// What a key encrypts it decrypts, and the other way round.
pub fn cipher_is_undone()
    ensures plain { (key : ℕ) (plain : List ℕ) → deciphered key (cipher key plain) ≡ plain }
    ensures encrypted { (key : ℕ) (bytes : List ℕ) → cipher key (deciphered key bytes) ≡ bytes }
{}

/// A charstring comes back from its encryption, whatever lenIV is, and so does the private text.
pub fn encryption_is_undone()
    ensures charstring { (lead : ℕ) (plain : List ℕ)
        → decrypted_charstring lead (encrypted_charstring lead plain) ≡ plain }
    ensures private { (plain : List ℕ) → decrypted_private (eexec plain) ≡ plain }
{}

/// Bytes that spell commands and numbers are read as the words of these.
pub fn spelled_commands_are_read()
    ensures { (code : List ℕ) (cs : List Command) → SpellsAll code cs → words_of code
        ≡ Ok (map command_word cs) }
{}

/// The words of commands say these commands.
pub fn command_words_say_commands()
    ensures { (cs : List Command) → AllFit cs → commands_of_words (map command_word cs) ≡ Ok cs }
{}

/// The parts of a font come back from segments, however each part is cut, whether or not the file
/// says its end.
pub fn parts_come_back_from_segments()
    ensures { (clear coded tail : List (List ℕ)) (end : List ℕ)
        → AllByRecursion IsBlock clear
        → AllByRecursion IsBlock coded
        → AllByRecursion IsBlock tail
        → 0 < length (blocks_bytes coded)
        → IsEnd end
        → font_parts
        (flat_map (segment ascii_segment) clear
        ++ (flat_map (segment binary_segment) coded
        ++ (flat_map (segment ascii_segment) tail ++ end)))
        ≡ Ok
        (record
        { clear = blocks_bytes clear; coded = blocks_bytes coded; tail = blocks_bytes tail }) }
{}

/// The three parts of an assembled PFB file come back, whatever its blocks.
pub fn parts_come_back_from_pfb()
    ensures { (size : ℕ) (clear private trailer : List ℕ) → 1 ≤ size → size < 2 ^ 32
        → font_parts (pfb size clear private trailer)
        ≡ Ok (record { clear = clear; coded = eexec private; tail = trailer }) }
{}

/// The bytes come back from their lines of hexadecimal digits, and what stands after the lines does
/// too.
pub fn bytes_come_back_from_digits()
    ensures bytes { (bytes more : List ℕ) → AreBytes bytes
        → digit_bytes (hexadecimal_lines bytes ++ more) ≡ bytes ++ digit_bytes more }
    ensures after { (bytes more : List ℕ) → AreBytes bytes
        → after_digits (2 * length bytes) (hexadecimal_lines bytes ++ more) ≡ line_feed ∷ more }
{}

/// The PFB file of a source that reads as itself comes back as the text of that source, each number
/// word in its one plain spelling, whatever the blocks of the file.
pub fn source_comes_back_from_pfb()
    ensures { (size : ℕ) (clear : List (List ℕ)) (operator : List ℕ) (lead : ℕ)
        (items : List Item) (last bytes trailer : List ℕ)
        → 1 ≤ size → size < 2 ^ 32 → IsReadBack clear operator lead items last
        → items_text lead operator items ≡ Ok bytes
        → disassembled (pfb size (joined clear) (bytes ++ (last ++ line_feed ∷ [])) trailer)
        ≡ Ok (text (record {
          clear = clear;
          items = map plain_item items ++ Plain last ∷ [];
          tail = tail_of (lines trailer);
        })) }
{}

/// So does its PFA file, which doesn't begin with the byte of a segment.
pub fn source_comes_back_from_pfa()
    ensures { (clear : List (List ℕ)) (operator : List ℕ) (lead : ℕ) (items : List Item)
        (last bytes trailer : List ℕ)
        → IsReadBack clear operator lead items last → items_text lead operator items ≡ Ok bytes
        → AreBytes (bytes ++ (last ++ line_feed ∷ [])) → begins_with marker (joined clear) ≡ false
        → disassembled (pfa (joined clear) (bytes ++ (last ++ line_feed ∷ [])) trailer)
        ≡ Ok (text (record {
          clear = clear;
          items = map plain_item items ++ Plain last ∷ [];
          tail = tail_of (lines trailer);
        })) }
{}

/// So do its parts without segments, the encrypted one in binary, where the first doesn't begin
/// with the byte of a segment.
pub fn source_comes_back_from_raw()
    ensures { (clear : List (List ℕ)) (operator : List ℕ) (lead : ℕ) (items : List Item)
        (last bytes trailer : List ℕ)
        → IsReadBack clear operator lead items last → items_text lead operator items ≡ Ok bytes
        → begins_with marker (joined clear) ≡ false
        → disassembled (raw_file (joined clear) (bytes ++ (last ++ line_feed ∷ [])) trailer)
        ≡ Ok (text (record {
          clear = clear;
          items = map plain_item items ++ Plain last ∷ [];
          tail = tail_of (lines trailer);
        })) }
{}

/// Items assemble to the same bytes when each number word stands in its one plain spelling.
pub fn plain_spelling_assembles_alike()
    ensures { (lead : ℕ) (operator : List ℕ) (items : List Item) (bytes : List ℕ)
        → items_text lead operator items ≡ Ok bytes
        → items_text lead operator (map plain_item items) ≡ Ok bytes }
{}
