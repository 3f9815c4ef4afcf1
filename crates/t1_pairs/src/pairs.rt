//! Kerning pairs.

use itoa::Buffer;
use std::alloc::{AllocError, Global};
use std::collections::BTreeMap;
use std::marker::Model;
use t1_buckets::{Buckets, BucketsIter, Copied};
use t1_frac::{Bytes, Code, Refusal, next_word, number_word};
use t1_text::{fault_on, first_line, is_name, same};

/// A kerning pair and its value.
#[derive(Debug, Drop)]
pub struct Pair {
    pub left: Bytes,
    pub right: Bytes,
    pub value: i32,
}

/// The kerning pairs of a font, by the bytes of the left, then the right name.
#[derive(Drop)]
pub struct Pairs {
    alloc: Global,
    pairs: Buckets<Pair>,
}

impl Model for Pairs {
    ghost use Rattle.std.specs.Prelude.{List};
    ghost use Rattle.t1_pairs.specs.declared.pairs.Pair.{Pair};

    ghost Value = { List Pair };

    ghost view = { λ p. p.pairs };

    ghost use Rattle.std.specs.Prelude.{◌≡◌, true};
    ghost use Rattle.t1_pairs.specs.Kerning.{are_pairs};

    ghost invariant = { λ p. are_pairs p.pairs ≡ true };
}

/// The pairs so far. Contracts see them in printed order.
#[derive(Drop)]
struct Sorted {
    values: BTreeMap<(Vec<u8>, Vec<u8>), i32>,
}

impl Model for Sorted {
    ghost use Rattle.std.specs.Prelude.{List};
    ghost use Rattle.t1_pairs.specs.declared.pairs.Pair.{Pair};
    ghost use Rattle.t1_pairs.specs.Sorted.{pairs_of_entries};

    ghost Value = { List Pair };

    ghost view = { λ s. pairs_of_entries s.values.entries };
}

ghost use Rattle.std.specs.Prelude.{◌≡◌, ◌∷◌, ◌+◌, ◌<◌, ◌≤◌, [], ◌++◌, IfOk, OnOk, OnErr, length};
ghost use Rattle.std.specs.Prelude.{slice_set, option_to_list, true, None, MatchOption};
ghost use Rattle.std.specs.List.{insert, remove};
ghost use Rattle.t1_frac.specs.Ascii.{line_feed, space};
ghost use Rattle.t1_frac.specs.declared.fault.Place.TheVariants as places;
ghost use Rattle.t1_frac.specs.Outcome.{Gives, reported_at};
ghost use Rattle.t1_frac.specs.Words.{words};
ghost use Rattle.t1_text.specs.Lines.{lines};
ghost use Rattle.t1_text.specs.Tokens.{first_is};
ghost use Rattle.t1_pairs.specs.Kerning.{small, kerning_value, kpx_of, pair_of, is_left_out};
ghost use Rattle.t1_pairs.specs.Kerning.{line_pairs, put_pair, pairs_with, pairs, kern, kpx_line};
ghost use Rattle.t1_pairs.specs.Kerning.{are_pairs};

impl Sorted {
    /// No pairs.
    fn new(alloc: Global) -> Self
        ensures { result ≡ [] }
    {
        Sorted {
            values: BTreeMap::new(alloc),
        }
    }

    /// The pairs with a further one, which replaces one of the same names.
    fn with(self, pair: Pair) -> Result<Self, AllocError>
        ensures { IfOk result (λ s. s ≡ put_pair pair self) }
    {
        let Sorted { mut values } = self;
        let Pair { left, right, value } = pair;
        values.insert((left.into_vec(), right.into_vec()), value)?;
        Ok(Sorted { values })
    }

    /// The pairs in printed order.
    fn into_pairs(self, alloc: Global) -> Result<Buckets<Pair>, AllocError>
        ensures { IfOk result (λ pairs. pairs ≡ self) }
    {
        let mut pairs = Buckets::new(alloc);
        for ((left, right), value) in self.values {
            pairs.push(Pair {
                left: Bytes::new(left),
                right: Bytes::new(right),
                value,
            })?;
        }
        Ok(pairs)
    }
}

/// A number from -32000 to 32000.
fn small(number: i64) -> Option<i32>
    ensures { result ≡ small number }
{
    if -32000 <= number && number <= 32000 {
        Some(number as i32)
    } else {
        None
    }
}

/// The value of a number word from -32000 to 32000.
#[tactic(auto, using(crate::proofs::ValueLaws::small_word, crate::proofs::ValueLaws::no_word))]
fn kerning_value(word: &[u8]) -> Option<i32>
    ensures { result ≡ kerning_value word.now }
{
    small(number_word(word)?)
}

/// Whether the first word of a line is this one.
fn first_word_is(key: &[u8], line: &[u8]) -> bool
    ensures { result ≡ first_is key.now (words line.now) }
{
    match next_word(line) {
        Some((word, _)) => same(key, word),
        None => false,
    }
}

/// Whether a line is of a form that is left out.
fn is_left_out(line: &[u8]) -> bool
    ensures { result ≡ is_left_out (words line.now) }
{
    first_word_is(b"KP", line)
        || first_word_is(b"KPH", line)
        || first_word_is(b"KPY", line)
        || first_word_is(b"StartKernPairs1", line)
}

/// The names and the number word of a line of four words.
fn kpx_words(line: &[u8]) -> Option<(&[u8], &[u8], &[u8])>
    ensures { MatchOption result (kpx_of (words line.now) ≡ None)
        (λ found.
        kpx_of (words line.now)
        ≡ pair_of found.0.now found.1.now (kerning_value found.2.now)) }
{
    let Some((_, after)) = next_word(line) else {
        return None;
    };
    let Some((left, after)) = next_word(after) else {
        return None;
    };
    let Some((right, after)) = next_word(after) else {
        return None;
    };
    let Some((number, after)) = next_word(after) else {
        return None;
    };
    if let Some(_more) = next_word(after) {
        return None;
    }
    Some((left, right, number))
}

/// The pair of a line `KPX LEFT RIGHT N`.
fn kpx_of(alloc: Global, line: &[u8]) -> Result<Option<Pair>, AllocError>
    ensures { IfOk result (λ pair. pair ≡ kpx_of (words line.now)) }
{
    let Some((left, right, number)) = kpx_words(line) else {
        return Ok(None);
    };
    let Some(value) = kerning_value(number) else {
        return Ok(None);
    };
    if !is_name(left) || !is_name(right) {
        return Ok(None);
    }
    let left = Bytes::copied(alloc, left)?;
    let right = Bytes::copied(alloc, right)?;
    Ok(Some(Pair { left, right, value }))
}

/// What a line says: a pair, nothing, or a fault.
#[tactic(auto, unfolding(crate::specs::Kerning::line_pairs))]
fn line_pair(alloc: Global, number: u64, line: &[u8]) -> Result<Option<Pair>, Refusal>
    ensures { Gives
        (λ pair. option_to_list pair)
        result
        (reported_at (places.Line number) (line_pairs (words line.now))) }
{
    if first_word_is(b"KPX", line) {
        let Some(pair) = kpx_of(alloc, line)? else {
            return Err(Refusal::from(fault_on(number, Code::F12)));
        };
        return Ok(Some(pair));
    }
    if is_left_out(line) {
        return Err(Refusal::from(fault_on(number, Code::F13)));
    }
    Ok(None)
}

/// The pairs of the lines of a text.
#[tactic(auto, using(crate::proofs::PairLaws::pair_step, crate::proofs::PairLaws::none_step, crate::proofs::PairLaws::pairs_fault))]
fn gathered(alloc: Global, text: &[u8]) -> Result<Sorted, Refusal>
    ensures { Gives (λ found. found) result (pairs_with [] 1 (lines text.now)) }
{
    let mut found = Sorted::new(alloc);
    let mut number: u64 = 1;
    let mut rest = text;
    while !rest.is_empty() {
        let (line, after) = first_line(rest);
        if let Some(pair) = line_pair(alloc, number, line)? {
            found = found.with(pair)?;
        }
        number += 1;
        rest = after;
    }
    Ok(found)
}

/// The pairs of a kerning file, or its first fault, with its line: F12 for a `KPX` line that isn't
/// understood, F13 for a line of a form that is left out.
#[tactic(auto, unfolding(crate::specs::Kerning::pairs), using(crate::proofs::PairsWellFormedLaws::lines_good))]
pub fn read_pairs(alloc: Global, bytes: &[u8]) -> Result<Pairs, Refusal>
    ensures { Gives (λ pairs. pairs) result (pairs bytes.now) }
{
    let pairs = gathered(alloc, bytes)?.into_pairs(alloc)?;
    Ok(Pairs { alloc, pairs })
}

/// Adds a name of a pair and a space to a text.
fn push_name(text: &mut Vec<u8>, name: &[u8]) -> Result<(), AllocError>
    ensures { OnOk result (text.new.items ≡ text.old.items ++ name.now ++ space ∷ []) }
{
    text.extend_from_slice(name)?;
    text.push(b' ')?;
    Ok(())
}

/// Adds the line of a pair to a text.
fn push_pair(text: &mut Vec<u8>, pair: &Pair) -> Result<(), AllocError>
    ensures { OnOk result (text.new.items ≡ text.old.items ++ kpx_line pair.now ++ line_feed ∷ []) }
{
    text.extend_from_slice(b"KPX ")?;
    push_name(text, pair.left.as_slice())?;
    push_name(text, pair.right.as_slice())?;
    let mut buffer = Buffer::new();
    text.extend_from_slice(buffer.format(pair.value).as_bytes())?;
    text.push(b'\n')?;
    Ok(())
}

impl Copied for Pair {
    /// A copy.
    fn copied(&self, alloc: Global) -> Result<Pair, AllocError> {
        let left = Bytes::copied(alloc, self.left.as_slice())?;
        let right = Bytes::copied(alloc, self.right.as_slice())?;
        Ok(Pair {
            left,
            right,
            value: self.value,
        })
    }
}

impl Pairs {
    /// The allocator of the call that made them, for what `t1_source` puts in.
    pub fn alloc(&self) -> Global {
        self.alloc
    }

    /// A copy, which shares the pairs until they are changed.
    pub fn copied(&self) -> Result<Pairs, AllocError>
        ensures { IfOk result (λ copy. copy ≡ self.now) }
    {
        Ok(Pairs {
            alloc: self.alloc,
            pairs: self.pairs.copied()?,
        })
    }

    /// Puts a pair in the place of another. Where memory runs out, nothing has changed.
    pub fn put(&mut self, at: usize, pair: Pair) -> Result<(), AllocError>
        requires within { at < length self.old }
        requires made { are_pairs (slice_set self.old at pair) ≡ true }
        ensures ok { OnOk result (self.new ≡ slice_set self.old at pair) }
        ensures err { OnErr result (self.new ≡ self.old) }
    {
        self.pairs.set(at, pair)
    }

    /// Puts a new pair in. Where memory runs out, nothing has changed.
    pub fn insert(&mut self, at: usize, pair: Pair) -> Result<(), AllocError>
        requires within { at ≤ length self.old }
        requires made { are_pairs (insert self.old at pair) ≡ true }
        ensures ok { OnOk result (self.new ≡ insert self.old at pair) }
        ensures err { OnErr result (self.new ≡ self.old) }
    {
        self.pairs.insert(at, pair)
    }

    /// Takes a pair out. Where memory runs out, nothing has changed.
    pub fn remove(&mut self, at: usize) -> Result<(), AllocError>
        requires within { at < length self.old }
        requires made { are_pairs (remove self.old at) ≡ true }
        ensures ok { OnOk result (self.new ≡ remove self.old at) }
        ensures err { OnErr result (self.new ≡ self.old) }
    {
        self.pairs.remove(at)
    }

    /// How many pairs they are.
    pub fn len(&self) -> usize
        ensures value { result ≡ length self.now }
        ensures kept { are_pairs self.now ≡ true }
    {
        self.pairs.len()
    }

    /// The pairs in printed order.
    pub fn iter(&self) -> BucketsIter<'_, Pair>
        ensures { result ≡ self.now }
    {
        self.pairs.iter()
    }

    /// The pairs as they are kept.
    pub(crate) fn buckets(&self) -> &Buckets<Pair>
        ensures value { result.now ≡ self.now }
        ensures kept { are_pairs result.now ≡ true }
    {
        &self.pairs
    }

    /// The printed form.
    pub fn text(&self) -> Result<Vec<u8>, AllocError>
        ensures { IfOk result (λ t. t.items ≡ kern self.now) }
    {
        let mut text = Vec::new(self.alloc);
        for pair in self.pairs.iter() {
            push_pair(&mut text, pair)?;
        }
        Ok(text)
    }
}
