//! How long the PFB and PFA files are, by sums over the lengths of the parts.
ghost use Rattle.std.specs.Prelude.{◌≡◌, ◌<◌, ◌≤◌, ◌+◌, ◌*◌, ◌^◌, List, ℕ, length};
ghost use Rattle.t1_code.specs.Parts.{file_of, hexadecimal_file_of, length_of};
ghost use Rattle.t1_code.specs.Pfa.{hexadecimal_lines};
ghost use Rattle.t1_code.specs.Pfb.{blocks, segments};
ghost use Rattle.t1_frac.specs.Outcome.{reported_at};
ghost use Rattle.t1_frac.specs.declared.fault.Place.TheVariants.{Nowhere};

use crate::block_size::BlockSize;
use crate::form::{FileForm, Pfb, private_part_len};
use crate::parts::Parts;
use crate::pfa::Pfa;
use t1_frac::Code;

/// How many bytes the head of a segment has.
const HEAD_LEN: u64 = 6;

/// How many bytes end a PFB file.
const END_LEN: u64 = 2;

/// How many digits a line of a PFA file has.
const LINE_DIGITS: u64 = 64;

/// How many blocks of this size so many bytes make; no byte makes one empty block.
fn block_count(len: u64, size: u64) -> u64
    requires { 1 ≤ size }
    ensures count { (bytes : List ℕ) → length bytes ≡ len → result ≡ length (blocks size bytes) }
    ensures at_most { result ≤ len + 1 }
{
    len.div_ceil(size).max(1)
}

/// How many bytes a part is in segments of this size, with their heads.
fn segments_len(len: usize, size: BlockSize) -> u64
    requires short { len < 2 ^ 31 }
    ensures len { (kind : ℕ) (bytes : List ℕ)
        → length bytes ≡ len
        → result ≡ length (segments size kind bytes) }
    ensures at_most { result ≤ 7 * 2 ^ 31 }
{
    len as u64 + HEAD_LEN * block_count(len as u64, size.get() as u64)
}

/// How many bytes the lines of hexadecimal digits of so many bytes have, with their ends.
fn lines_len(len: usize) -> u64
    requires short { len < 2 ^ 31 }
    ensures len { (bytes : List ℕ)
        → length bytes ≡ len
        → result ≡ length (hexadecimal_lines bytes) }
    ensures at_most { result ≤ 4 * 2 ^ 31 }
{
    let digits = 2 * len as u64;
    digits + block_count(digits, LINE_DIGITS)
}

/// How many bytes `write_pfb` writes, or F23 where it refuses. It takes no memory.
pub fn pfb_len(parts: &Parts, size: BlockSize) -> Result<u64, Code>
    ensures { reported_at Nowhere result ≡ length_of (file_of size parts.now) }
{
    let private_len = private_part_len(parts)?;
    let clear = segments_len(parts.clear.len(), size);
    let private = segments_len(private_len, size);
    let trailer = segments_len(parts.trailer.len(), size);
    Ok(clear + private + trailer + END_LEN)
}

/// How many bytes `write_pfa` writes, or F23 where it refuses. It takes no memory.
pub fn pfa_len(parts: &Parts) -> Result<u64, Code>
    ensures { reported_at Nowhere result ≡ length_of (hexadecimal_file_of parts.now) }
{
    let private_len = private_part_len(parts)?;
    let private = lines_len(private_len);
    Ok(parts.clear.len() as u64 + private + parts.trailer.len() as u64)
}

/// A form whose file's length is known before it is written.
pub trait FileLen: FileForm {
    ghost use Rattle.std.specs.Prelude.{◌≡◌};
    ghost use Rattle.t1_code.specs.Parts.{length_of, pieces_text};
    ghost use Rattle.t1_frac.specs.Outcome.{reported_at};
    ghost use Rattle.t1_frac.specs.declared.fault.Place.TheVariants.{Nowhere};

    /// How many bytes the file of the parts has, or F23 where there is none. It takes no memory.
    fn len(&self, parts: &Parts) -> Result<u64, Code>
        ensures { reported_at Nowhere result
            ≡ length_of
            (Self.file self.now parts.now.clear.now (pieces_text parts.now)
            parts.now.trailer.now) };
}

impl FileLen for Pfb {
    fn len(&self, parts: &Parts) -> Result<u64, Code> {
        pfb_len(parts, self.size)
    }
}

impl FileLen for Pfa {
    fn len(&self, parts: &Parts) -> Result<u64, Code> {
        pfa_len(parts)
    }
}
