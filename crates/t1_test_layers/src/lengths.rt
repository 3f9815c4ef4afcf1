//! The lengths of lines of a private text, counted by hand.
use std::test::Fail;
use t1_font::{entry_line_len, section_line_len};

#[test]
fn counts_a_glyph_with_its_closing_text(rt: HostRuntime) -> Result<(), Fail> {
    // `/A 9 RD `, nine bytes, ` ND` and the line's end
    assert!(rt; entry_line_len(b"RD", 2, 9, b"ND") == 21);
    Ok(())
}

#[test]
fn counts_a_subr_without_a_closing_text(rt: HostRuntime) -> Result<(), Fail> {
    // `dup 4 100 -| `, a hundred bytes and the line's end
    assert!(rt; entry_line_len(b"-|", 5, 100, b"") == 114);
    Ok(())
}

#[test]
fn counts_a_section_line(rt: HostRuntime) -> Result<(), Fail> {
    assert!(rt; section_line_len(b"/Subrs ", 43, b" array") == b"/Subrs 43 array\n".len());
    Ok(())
}
