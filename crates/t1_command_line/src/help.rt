//! What the helps say after the arguments.

/// What each help says of codes.
pub(crate) const CODES: &str =
    "t1edit explain lists all codes, and t1edit explain CODE says what one means, and what to do.";

/// What the help of a session says of its commands, and of codes.
pub(crate) const SESSION: &str = "\
Commands, a line each:
  replace glyph NAME, replace subr N   another body; the lines of the body follow
  add glyph NAME, add subr N           a new entry; the lines of the body follow
  remove glyph NAME, remove subr N     takes an entry out
  encode CODE NAME                     a name for a code of the encoding array
  unencode CODE                        no name for a code of the encoding array
  set leniv N                          the number of bytes in front of each charstring
  kern LEFT RIGHT N                    the value of a kerning pair
  unkern LEFT RIGHT                    takes a kerning pair out
  print source                         the source as it stands
  print kern                           the kerning pairs
  print pfb                            the assembled font
  print pfb N                          the same, in segments of N bytes
  print pfa                            the same, with its encrypted part in hexadecimal
  print afm                            its AFM file
  print uses                           the Subrs and glyphs that each glyph stands on
  show glyph NAME, show subr N         the words of an entry
  show metrics NAME                    the line of a glyph in the AFM file
  show outline NAME                    the lines and curves of a glyph, with those of its parts
  show encoding                        a line for each code that has a name
  show refusal                         where the edit or batch that was refused last has its fault
  begin, commit, abort                 a batch of edits, which are judged together

A body ends with a line that holds a single dot.

Answers, a line each:
  ok               it is done
  refused E4       the command broke a rule, and changed nothing
  refused F20 subr 7
                   the edited font would have this fault, and nothing changed
  refused memory   there wasn't memory enough, and nothing changed
  data LENGTH      a print or what is shown: so many bytes follow, and a line end

A commit that is refused closes its batch, and drops its edits.

Example:
  $ printf 'add glyph B\\n0 500 hsbw 9 hlineto endchar\\n.\\nremove glyph nosuch\\nprint kern\\n' |
      t1edit session --kern font.afm font.t1
  ok
  refused E1
  data 12
  KPX A V -92


t1edit explain lists all codes, and t1edit explain CODE says what one means, and what to do.";
