//! What an item says of lenIV, the number of bytes that stand in front of a charstring.

ghost use Rattle.std.specs.Prelude.{◌≡◌, option_and_then, option_map};
ghost use Rattle.t1_parts.specs.ItemRefs.{item_of};
ghost use Rattle.t1_parts.specs.LenIV.{plain_line, said_lead, says_lead, lead_of_token};

use crate::item::Item;
use crate::item_ref::ItemRef;
use t1_text::{after_token, decimal_up_to};

/// What an item says of lenIV: the token after `/lenIV` on a plain line, or that there is none.
fn said_lead<'i>(item: &ItemRef<'i, '_>) -> Option<Option<&'i [u8]>>
    ensures { option_map (λ said. option_map (λ token. token.now) said) result
        ≡ said_lead (item_of item.now) }
{
    match item.plain_line() {
        Some(line) => after_token(b"/lenIV", line),
        None => None,
    }
}

impl<'i, 'a> ItemRef<'i, 'a> {
    /// Whether it is a plain line with a token `/lenIV`.
    pub fn says_lead(&self) -> bool
        ensures { result ≡ says_lead (item_of self.now) }
    {
        said_lead(self).is_some()
    }
}

/// The number from 0 to 64 that an item says.
pub(crate) fn lead_on(item: &Item) -> Option<u8>
    ensures { result ≡ option_and_then lead_of_token (said_lead item.now) }
{
    let Some(Some(token)) = said_lead(&item.as_ref()) else {
        return None;
    };
    let Some(lead) = decimal_up_to(64, token) else {
        return None;
    };
    Some(lead as u8)
}
