//! The parts of a readable source: the clear part with its encoding and header keys, the private
//! part with its sections and entries, the tail. Each is found in the lines of a text, or its first
//! fault with its line; items print again.
//!
//! All of it is for the crates above. Users meet [`Item`], which `t1_source` passes on, and
//! [`Items`], which a source gives.
//!
//! What is proved: what bytes are read as, or their first fault with its line ([`read_parts`]); the
//! parts and the bodies that are cut from the bytes are those of the lines (`IsCut`, `IsPiece`).
#![tactic(auto)]

mod alone_items;
mod block;
mod blocks;
mod body;
mod encoding;
mod entry_key;
mod gathered;
mod gathered_stretches;
mod header;
mod item;
mod item_ref;
mod items;
mod items_iter;
mod len_iv;
mod operator;
mod parts;
mod plain_lines;
mod printing;
mod private;
mod section_ends;
mod sections;
mod starts;
mod stretch;
mod stretches;
mod stretches_left;

pub use alone_items::AloneItems;
pub use body::{
    BodyFront, EntryBody, body_of, glyph_entry, has_brace, opened_body, piece_of, subr_entry,
    uncommented,
};
pub use encoding::{array_len, array_of, encoding_at, has_standard, slot_of};
pub use entry_key::{EntryKey, ItemKind};
pub use header::header_of;
pub use item::{Item, Taken};
pub use item_ref::ItemRef;
pub use items::{Items, raise};
pub use items_iter::ItemsIter;
pub use operator::{operator_of, operator_on, text_place};
pub use parts::{PartBytes, ReadParts, ends_in, holds, parts_of, read_parts, tail_of};
pub use printing::{push_decimal, push_items, push_line, push_lines, push_words};
pub use private::{count_between, opens_glyph, opens_subr};
pub use sections::section_at;
pub use starts::{glyphs_needed, lead_of, subrs_needed};
