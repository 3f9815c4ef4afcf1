//! Laws of sessions.
ghost use Rattle.std.specs.Prelude.{◌≡◌, ℕ, Ok, IsOk};
ghost use Rattle.t1_font.specs.Assembly.{source_file, source_pfa};
ghost use Rattle.t1_font.specs.SourceChecks.{source_check};
ghost use Rattle.t1_parts.specs.SourceParts.{SourceParts};
ghost use Rattle.t1_session.specs.Files.{MetricsTellFirstFault};
ghost use Rattle.t1_session.specs.Readable.{KeepsFaultless, KeepsReadable, OpensFaultless};
ghost use Rattle.t1_session.specs.Readable.{OpensReadable, PrintsWithoutFault, ReadsBack};
ghost use Rattle.t1_session.specs.Readable.{ShowsWithoutFault};

/// The source of a session never has a fault: of its bodies, F23, or of a glyph.
pub fn a_session_is_faultless()
    ensures opens { OpensFaultless }
    ensures keeps { KeepsFaultless }
{}

/// What a session prints reads back as what it holds, and no print or query of it answers a fault,
/// whatever commands came before.
pub fn a_session_reads_back()
    ensures opens { OpensReadable }
    ensures keeps { KeepsReadable }
    ensures reads { ReadsBack }
    ensures prints { PrintsWithoutFault }
    ensures shows { ShowsWithoutFault }
{}

/// The AFM file of a source and its pairs, which were read, is refused by the source's first fault
/// and by nothing else.
pub fn metrics_report_the_first_fault()
    ensures { MetricsTellFirstFault }
{}

/// A source without a fault has its PFB file in blocks of each length, and its PFA file. So a print
/// of one answers none.
pub fn a_faultless_source_has_its_files()
    ensures blocks { (s : SourceParts) (size : ℕ) → source_check s ≡ Ok tt → IsOk
        (source_file size s) }
    ensures pfa { (s : SourceParts) → source_check s ≡ Ok tt → IsOk (source_pfa s) }
{}
