//! Laws of a source's file and what is read back of it.
ghost use Rattle.std.specs.Prelude.{◌≡◌, ℕ, ◌<◌, ◌≤◌, ◌^◌, true, false, Ok, List, [], ◌∷◌, ◌++◌};
ghost use Rattle.std.specs.List.{list_all};
ghost use Rattle.t1_text.specs.Lines.{begins_with, joined};
ghost use Rattle.t1_code.specs.Pfb.{marker};
ghost use Rattle.t1_parts.specs.Printing.{text};
ghost use Rattle.t1_parts.specs.SourceParts.{SourceParts};
ghost use Rattle.t1_source.specs.WellFormed.{IsWellFormed, is_counted};
ghost use Rattle.t1_font.specs.Assembly.{source_file, source_pfa};
ghost use Rattle.t1_disassemble.specs.Disassembly.{disassembled};
ghost use Rattle.t1_round_trip.specs.ReadBack.{plain_source, ReadsAsItself, HasBytes};
ghost use Rattle.t1_round_trip.specs.ReadBack.{source_raw, IsAssembledAgain};

/// The PFB file of a source that reads as itself is read back as the text of that source, each
/// number word in its one plain spelling, whatever the blocks of the file.
pub fn file_comes_back()
    ensures { (size : ℕ) (source : SourceParts) (file : List ℕ) → 1 ≤ size → size < 2 ^ 32
        → ReadsAsItself source
        → source_file size source ≡ Ok file → disassembled file ≡ Ok (text (plain_source source)) }
{}

/// So is its PFA file, where it doesn't begin with the byte of a segment.
pub fn hexadecimal_file_comes_back()
    ensures { (source : SourceParts) (file : List ℕ) → ReadsAsItself source → HasBytes source
        → begins_with marker (joined source.clear) ≡ false
        → source_pfa source ≡ Ok file → disassembled file ≡ Ok (text (plain_source source)) }
{}

/// So are the parts of its file without segments, where they don't begin with the byte of one.
pub fn raw_file_comes_back()
    ensures { (source : SourceParts) (file : List ℕ) → ReadsAsItself source
        → begins_with marker (joined source.clear) ≡ false
        → source_raw source ≡ Ok file → disassembled file ≡ Ok (text (plain_source source)) }
{}

/// Of what is read back of the PFB file of such a source, which was read or edited and has counts
/// of at most nine digits, that very file is assembled.
pub fn file_is_assembled_again()
    ensures { (size : ℕ) (source : SourceParts) (file : List ℕ) → 1 ≤ size → size < 2 ^ 32
        → ReadsAsItself source → IsWellFormed source → list_all is_counted source.items ≡ true
        → source_file size source ≡ Ok file → IsAssembledAgain (source_file size) file }
{}

/// So is the PFA file of what is read back of it.
pub fn hexadecimal_file_is_assembled_again()
    ensures { (source : SourceParts) (file : List ℕ) → ReadsAsItself source → HasBytes source
        → begins_with marker (joined source.clear) ≡ false
        → IsWellFormed source → list_all is_counted source.items ≡ true
        → source_pfa source ≡ Ok file → IsAssembledAgain source_pfa file }
{}

/// So are the parts of the file without segments of what is read back of them.
pub fn raw_file_is_assembled_again()
    ensures { (source : SourceParts) (file : List ℕ) → ReadsAsItself source
        → begins_with marker (joined source.clear) ≡ false
        → IsWellFormed source → list_all is_counted source.items ≡ true
        → source_raw source ≡ Ok file → IsAssembledAgain source_raw file }
{}
