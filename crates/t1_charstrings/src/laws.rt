//! Laws of the charstrings that are kept.
ghost use Rattle.t1_charstrings.specs.Laws.{KeptTextLaw};
ghost use Rattle.t1_charstrings.specs.Sums.{InsertLenLaw, InsertSumLaw, PutLenLaw, PutSumLaw};
ghost use Rattle.t1_charstrings.specs.Sums.{RaisedLenLaw, RemoveLenLaw, RemoveSumLaw};

/// The private text of a source is that of the charstrings that are kept of it.
pub fn kept_text()
    ensures { KeptTextLaw }
{}

/// The length of the private text with an entry in the place of that of its key.
pub fn put_len()
    ensures { PutLenLaw }
{}

/// The length of the private text with an entry more.
pub fn insert_len()
    ensures { InsertLenLaw }
{}

/// The length of the private text without an entry.
pub fn remove_len()
    ensures { RemoveLenLaw }
{}

/// The length of the private text whose counts are raised.
pub fn raised_len()
    ensures { RaisedLenLaw }
{}

/// The length of the private text of a source in which an entry was put in the place of that of its
/// key.
pub fn put_sum()
    ensures { PutSumLaw }
{}

/// The length of the private text of a source in which an entry was put in.
pub fn insert_sum()
    ensures { InsertSumLaw }
{}

/// The length of the private text of a source of which an entry was taken out.
pub fn remove_sum()
    ensures { RemoveSumLaw }
{}
