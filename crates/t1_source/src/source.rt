//! A source that was read.

use crate::codes::{array_code, array_names, standard_code, standard_names};
use crate::editing::Change;
use std::alloc::{AllocError, Global};
use std::marker::Model;
use std::mem;
use std::rc::Rc;
use t1_frac::{Bytes, Refusal};
use t1_pairs::Pairs;
use t1_parts::{
    Item, Items, ReadParts, has_standard, header_of, operator_of, push_items, push_lines, raise,
    read_parts,
};
use t1_text::{copied_bytes, same};

/// The readable source of a font: its clear lines, the items of its private part and its tail.
#[derive(Drop)]
pub struct Source<'a> {
    alloc: Global,
    clear: Rc<Vec<Bytes>>,
    items: Items<'a>,
    tail: Rc<Vec<Bytes>>,
}

impl<'a> Model for Source<'a> {
    ghost use Rattle.t1_parts.specs.SourceParts.{SourceParts};

    ghost Value = { SourceParts };

    ghost view = { λ source.
        record {
          clear = source.clear.value.items;
          items = source.items;
          tail = source.tail.value.items;
        } };

    ghost use Rattle.t1_source.specs.WellFormed.{IsWellFormed};

    ghost invariant = { λ source.
        IsWellFormed
        (record {
          clear = source.clear.value.items;
          items = source.items;
          tail = source.tail.value.items;
        }) };
}

ghost use Rattle.std.specs.Prelude.{◌≡◌, ◌<◌, ◌≤◌, ◌++◌, ◌∷◌, ℕ, [], length, slice_set};
ghost use Rattle.std.specs.Prelude.{slice_index_or, IfOk, OnOk, OnErr, option_map};
ghost use Rattle.std.specs.List.{insert, remove};
ghost use Rattle.t1_frac.specs.Outcome.{Gives};
ghost use Rattle.t1_text.specs.Lines.{lines};
ghost use Rattle.t1_parts.specs.Reading.{reads, standard};
ghost use Rattle.t1_source.specs.WellFormed.{IsWellFormed};
ghost use Rattle.t1_parts.specs.LenIV.{lead};
ghost use Rattle.t1_parts.specs.Operator.{operator};
ghost use Rattle.t1_parts.specs.Header.{header};
ghost use Rattle.t1_source.specs.Codes.{code_of, name_at, name_of_code};
ghost use Rattle.t1_parts.specs.Printing.{text};
ghost use Rattle.t1_parts.specs.Counts.{raised};
ghost use Rattle.t1_source.specs.Changes.{changed, IsInPlaceOf, Suits};
ghost use Rattle.t1_source.specs.Editing.{with_items, with_clear};
ghost use Rattle.t1_parts.specs.declared.item.Item.TheVariants as variants;

/// The source of some bytes. The first fault refuses it: F1 where no line ends the clear part, F2
/// where none ends the private part, then F5 and F6 of the clear lines, F4 and F7 to F10 of the
/// private lines, each from the top and with its line, then F3 and F11. No table of the lines is
/// made.
pub fn read_source(alloc: Global, bytes: &[u8]) -> Result<Source<'_>, Refusal>
    ensures { Gives (λ source. source) result (reads bytes.now) }
{
    let ReadParts { clear, items, tail } = read_parts(alloc, bytes)?;
    Ok(Source {
        alloc,
        clear: Rc::new(alloc, clear)?,
        items,
        tail: Rc::new(alloc, tail)?,
    })
}

/// Puts a new item in and raises the counts.
fn inserted<'a>(items: &mut Items<'a>, at: usize, item: Item<'a>) -> Result<(), AllocError>
    requires { at ≤ length items.old }
    ensures { OnOk result (items.new ≡ raised (insert items.old at item.entry)) }
{
    items.insert(at, item)?;
    raise(items)
}

impl<'a> Source<'a> {
    /// The allocator of the call that made it.
    pub(crate) fn alloc(&self) -> Global {
        self.alloc
    }

    /// A copy, which shares the texts until they are changed.
    pub fn copied(&self) -> Result<Source<'a>, AllocError>
        ensures { IfOk result (λ copy. copy ≡ self.now) }
    {
        Ok(Source {
            alloc: self.alloc,
            clear: self.clear.clone()?,
            items: self.items.copied()?,
            tail: self.tail.clone()?,
        })
    }

    /// A copy that borrows nothing of the bytes that were read, so that it may outlive them. Each
    /// of its texts takes memory of its own.
    pub fn owned(&self) -> Result<Source<'static>, AllocError>
        ensures { IfOk result (λ owned. owned ≡ self.now) }
    {
        Ok(Source {
            alloc: self.alloc,
            clear: Rc::new(self.alloc, copied_bytes(self.alloc, self.clear())?)?,
            items: self.items.owned(self.alloc)?,
            tail: Rc::new(self.alloc, copied_bytes(self.alloc, self.tail())?)?,
        })
    }

    /// The items, of a source that was read or edited.
    pub(crate) fn kept_items(&self) -> &Items<'a>
        ensures value { result.now ≡ self.now.items }
        ensures kept { IsWellFormed self.now }
    {
        &self.items
    }

    /// The lines of the clear part.
    pub fn clear(&self) -> &[Bytes]
        ensures { result.now ≡ self.now.clear }
    {
        self.clear.as_slice()
    }

    /// The items of the private part.
    pub fn items(&self) -> &Items<'a>
        ensures { result.now ≡ self.now.items }
    {
        &self.items
    }

    /// The lines of the tail.
    pub fn tail(&self) -> &[Bytes]
        ensures { result.now ≡ self.now.tail }
    {
        self.tail.as_slice()
    }

    /// The number of bytes that stand in front of a charstring: lenIV, 4 where no plain line says
    /// it.
    pub fn lead(&self) -> u8
        ensures { result ≡ lead self.now }
    {
        self.items.lead()
    }

    /// The operator that reads a charstring, usually `RD`.
    pub fn operator(&self) -> &[u8]
        ensures { result.now ≡ operator self.now }
    {
        operator_of(self.items.iter())
    }

    /// The printed form: its lines, each with LF.
    pub fn text(&self) -> Result<Vec<u8>, AllocError>
        ensures { IfOk result (λ printed. printed.items ≡ text self.now) }
    {
        let mut text = Vec::new(self.alloc);
        push_lines(&mut text, self.clear.as_slice())?;
        push_items(&mut text, self.items.iter())?;
        push_lines(&mut text, self.tail.as_slice())?;
        Ok(text)
    }

    /// The value of a header key: `FontName`, `FullName`, `FamilyName`, `Weight`, `version`,
    /// `Notice`, `ItalicAngle`, `isFixedPitch`, `UnderlinePosition` or `UnderlineThickness`. Any
    /// other key has none.
    pub fn header(&self, key: &str) -> Option<&[u8]>
        ensures { option_map (λ value. value.now) result ≡ header self.now key.now }
    {
        header_of(self.clear.as_slice(), key.as_bytes())
    }

    /// The lowest code that the encoding gives a name; none for `.notdef`.
    pub fn code_of(&self, name: &[u8]) -> Option<u8>
        ensures { result ≡ code_of self.now name.now }
    {
        if same(name, b".notdef") {
            return None;
        }
        if self.standard() {
            return standard_code(name);
        }
        array_code(self.clear.as_slice(), name)
    }

    /// The names that the encoding gives the codes from 0 to 255.
    pub fn names_by_code(&self) -> [Option<&[u8]>; 256]
        ensures { (code : ℕ) → code < 256 → name_at result code ≡ name_of_code self.now code }
    {
        if self.standard() {
            return standard_names();
        }
        array_names(self.clear.as_slice())
    }

    /// Whether the encoding is the standard one.
    pub fn standard(&self) -> bool
        ensures { result ≡ standard self.now }
    {
        has_standard(self.clear.as_slice())
    }

    /// Puts an item in the place of one of its kind and key. Where memory runs out, nothing has
    /// changed.
    pub(crate) fn put_item(&mut self, at: usize, item: Item<'a>) -> Result<(), AllocError>
        requires within { at < length self.old.items }
        requires kind { IsInPlaceOf (slice_index_or self.old.items at (variants.Plain [])) item }
        requires made { IsWellFormed (with_items self.old (slice_set self.old.items at item)) }
        ensures ok { OnOk result
            (self.new ≡ with_items self.old (slice_set self.old.items at item.entry)) }
        ensures err { OnErr result (self.new ≡ self.old) }
    {
        let _items = self.kept_items();
        self.items.put(at, item)?;
        Ok(())
    }

    /// Puts a new item in and raises the counts. Where memory runs out, nothing has changed.
    pub(crate) fn insert_item(&mut self, at: usize, item: Item<'a>) -> Result<(), AllocError>
        requires within { at ≤ length self.old.items }
        requires made { IsWellFormed (with_items self.old (insert self.old.items at item)) }
        ensures ok { OnOk result
            (self.new ≡ with_items self.old (insert self.old.items at item.entry)) }
        ensures err { OnErr result (self.new ≡ self.old) }
    {
        let mut items = match self.items.copied() {
            Ok(items) => items,
            Err(error) => {
                drop(item);
                return Err(error);
            }
        };
        inserted(&mut items, at, item)?;
        drop(mem::replace(&mut self.items, items));
        Ok(())
    }

    /// Takes an item out. Where memory runs out, nothing has changed.
    pub(crate) fn remove_item(&mut self, at: usize) -> Result<(), AllocError>
        requires within { at < length self.old.items }
        requires made { IsWellFormed (with_items self.old (remove self.old.items at)) }
        ensures ok { OnOk result (self.new ≡ with_items self.old (remove self.old.items at)) }
        ensures err { OnErr result (self.new ≡ self.old) }
    {
        let _items = self.kept_items();
        self.items.take_out(at)?;
        Ok(())
    }

    /// Puts other lines in the place of the clear part. Where memory runs out, nothing has changed.
    pub(crate) fn put_clear(&mut self, clear: Vec<Bytes>) -> Result<(), AllocError>
        requires { IsWellFormed (with_clear self.old clear.items) }
        ensures ok { OnOk result (self.new ≡ with_clear self.old clear.items) }
        ensures err { OnErr result (self.new ≡ self.old) }
    {
        self.clear = Rc::new(self.alloc, clear)?;
        Ok(())
    }

    /// Makes a change that was prepared for this source and these pairs. It takes memory for what
    /// comes in, and for what is changed while a copy shares it: where it runs out, nothing has
    /// changed.
    pub fn commit(&mut self, pairs: &mut Pairs, change: Change<'a>) -> Result<(), AllocError>
        requires { Suits change self.old pairs.old }
        ensures source { OnOk result (self.new ≡ (changed change.entry self.old pairs.old).0) }
        ensures pairs { OnOk result (pairs.new ≡ (changed change.entry self.old pairs.old).1) }
        ensures err { OnErr result ((self.new ≡ self.old) × (pairs.new ≡ pairs.old)) }
    {
        match change {
            Change::PutItem(at, item) => self.put_item(at, item),
            Change::InsertItem(at, item) => self.insert_item(at, item),
            Change::RemoveItem(at) => self.remove_item(at),
            Change::PutClear(lines) => self.put_clear(lines),
            Change::PutPair(at, pair) => pairs.put(at, pair),
            Change::InsertPair(at, pair) => pairs.insert(at, pair),
            Change::RemovePair(at) => pairs.remove(at),
        }
    }
}
