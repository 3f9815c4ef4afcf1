//! A part of a PFB file, cut into segments.
ghost use Rattle.std.specs.Prelude.{◌≡◌, ◌^◌, ◌<◌, min, IfOk, OnOk};
ghost use Rattle.t1_code.specs.Writing.{Puts};
ghost use Rattle.t1_code.specs.Segments.{Segmenting, head_due, segment_opened, in_segments};
ghost use Rattle.t1_code.specs.Segments.{segmenting_after};
ghost use Rattle.t1_code.specs.Pfb.{segment_head as head, segments};

use crate::block_size::BlockSize;
use crate::outlet::Outlet;
use std::io::{self, Write};
use std::marker::Model;

/// The byte that each segment begins with.
pub(crate) const MARKER: u8 = 128;

/// The first six bytes of a segment.
fn segment_head(kind: u8, len: usize) -> [u8; 6]
    requires { len < 2 ^ 31 }
    ensures { result ≡ head kind len }
{
    let [a, b, c, d] = (len as u32).to_le_bytes();
    [MARKER, kind, a, b, c, d]
}

/// Cuts a part into segments of one size as its bytes pass.
#[derive(Drop)]
pub(crate) struct Segmenter {
    kind: u8,
    size: BlockSize,
    room: usize,
    left: usize,
}

impl Model for Segmenter {
    ghost use Rattle.t1_code.specs.Segments.{Segmenting};

    ghost Value = { Segmenting };

    ghost view = { λ s. record { kind = s.kind; size = s.size; room = s.room; left = s.left } };
}

impl Segmenter {
    /// Begins a part of so many bytes, and passes the head of its first segment on.
    pub(crate) fn begin<W: Write>(
        outlet: &mut Outlet<W>,
        kind: u8,
        size: BlockSize,
        len: usize,
    ) -> io::Result<Segmenter>
        ensures text { Puts W.contents outlet.old outlet.new (head kind (min size len)) result }
        ensures state { IfOk result
            (λ segmenter.
            segmenter ≡ record { kind = kind; size = size; room = size; left = len }) }
    {
        outlet.put(&segment_head(kind, size.get().min(len)))?;
        Ok(Segmenter {
            kind,
            size,
            room: size.get(),
            left: len,
        })
    }

    /// Begins a segment where the present one takes no byte more.
    fn open<W: Write>(&mut self, outlet: &mut Outlet<W>) -> io::Result<()>
        ensures text { Puts W.contents outlet.old outlet.new (head_due self.old) result }
        ensures state { OnOk result (self.new ≡ segment_opened self.old) }
        ensures room { OnOk result (0 < self.new.room) }
    {
        if self.room > 0 {
            return Ok(());
        }
        outlet.put(&segment_head(self.kind, self.size.get().min(self.left)))?;
        self.room = self.size.get();
        Ok(())
    }

    /// Passes bytes of the part on.
    pub(crate) fn put<W: Write>(&mut self, outlet: &mut Outlet<W>, bytes: &[u8]) -> io::Result<()>
        ensures text { Puts W.contents outlet.old outlet.new
            (in_segments self.old bytes.now) result }
        ensures state { OnOk result (self.new ≡ segmenting_after self.old bytes.now) }
    {
        let mut rest = bytes;
        while !rest.is_empty() {
            self.open(outlet)?;
            let (front, after) = rest.split_at(rest.len().min(self.room));
            outlet.put(front)?;
            self.room -= front.len();
            self.left = self.left.saturating_sub(front.len());
            rest = after;
        }
        Ok(())
    }
}

/// Passes a part on in segments of its type with so many bytes each.
pub(crate) fn put_part<W: Write>(
    outlet: &mut Outlet<W>,
    kind: u8,
    size: BlockSize,
    bytes: &[u8],
) -> io::Result<()>
    ensures { Puts W.contents outlet.old outlet.new (segments size kind bytes.now) result }
{
    size.has_bytes();
    let mut segmenter = Segmenter::begin(outlet, kind, size, bytes.len())?;
    segmenter.put(outlet, bytes)
}
