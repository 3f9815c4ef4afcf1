//! Bytes in lines of hexadecimal digits.
ghost use Rattle.std.specs.Prelude.{◌≡◌, ◌<◌, [], ◌∷◌, OnOk};
ghost use Rattle.t1_code.specs.Writing.{Puts};
ghost use Rattle.t1_code.specs.Hexadecimal.{in_lines, line_end_due, next_room, refilled};
ghost use Rattle.t1_code.specs.Hexadecimal.{room_after};
ghost use Rattle.t1_code.specs.Pfa.{hexadecimal_digit, digits_of_byte};

use crate::outlet::Outlet;
use std::io::{self, Write};

/// How many bytes a line takes, of two digits each.
const LINE_BYTES: u8 = 32;

/// The digit of a value.
fn digit(value: u8) -> u8
    requires { value < 16 }
    ensures { result ≡ hexadecimal_digit value }
{
    if value < 10 {
        b'0' + value
    } else {
        b'a' - 10 + value
    }
}

/// The two digits of a byte.
fn digits(byte: u8) -> [u8; 2]
    ensures { result ≡ digits_of_byte byte }
{
    [digit(byte / 16), digit(byte % 16)]
}

/// Lines of digits, as their bytes pass: how many bytes the present line still takes.
#[derive(Drop)]
pub(crate) struct HexLines {
    pub(crate) room: u8,
}

impl HexLines {
    /// The first line, before its first byte.
    pub(crate) fn new() -> HexLines
        ensures { result.room ≡ 32 }
    {
        HexLines { room: LINE_BYTES }
    }

    /// Ends the present line where it is full.
    fn end_full<W: Write>(&mut self, outlet: &mut Outlet<W>) -> io::Result<()>
        ensures text { Puts W.contents outlet.old outlet.new (line_end_due self.old.room) result }
        ensures state { OnOk result (self.new.room ≡ refilled self.old.room) }
    {
        if self.room > 0 {
            return Ok(());
        }
        outlet.put(b"\n")?;
        self.room = LINE_BYTES;
        Ok(())
    }

    /// Passes the digits of a byte on, after the end of a full line.
    fn put_byte<W: Write>(&mut self, outlet: &mut Outlet<W>, byte: u8) -> io::Result<()>
        ensures text { Puts W.contents outlet.old outlet.new
            (in_lines self.old.room (byte ∷ [])) result }
        ensures state { OnOk result (self.new.room ≡ next_room self.old.room) }
    {
        self.end_full(outlet)?;
        self.room -= 1;
        outlet.put(&digits(byte))
    }

    /// Passes the digits of bytes on.
    pub(crate) fn put<W: Write>(&mut self, outlet: &mut Outlet<W>, bytes: &[u8]) -> io::Result<()>
        ensures text { Puts W.contents outlet.old outlet.new
            (in_lines self.old.room bytes.now) result }
        ensures state { OnOk result (self.new.room ≡ room_after self.old.room bytes.now) }
    {
        for byte in bytes {
            self.put_byte(outlet, *byte)?;
        }
        Ok(())
    }
}
