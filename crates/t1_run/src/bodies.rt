//! The compiled bodies of a font.

ghost use Rattle.std.specs.Prelude.{◌≡◌, ℕ, List, Option, is_some};
ghost use Rattle.std.specs.Option.{option_copied};
ghost use Rattle.t1_code.specs.declared.command.Command.{Command as Commands};

use t1_code::Command;

/// What the run of a glyph's body asks of a font: the bodies of its Subrs, and which glyphs it has.
/// Contracts see two maps, from a number and from a name to a list of commands.
pub trait Bodies {
    ghost subrs: { Self → ℕ → Option (List Commands) };

    ghost glyphs: { Self → List ℕ → Option (List Commands) };

    /// The body of the Subr of this number.
    fn subr(&self, n: u16) -> Option<&[Command]>
        ensures { option_copied result ≡ subrs self.now n };

    /// Whether there is a glyph of this name.
    fn has_glyph(&self, name: &[u8]) -> bool
        ensures { result ≡ is_some (glyphs self.now name.now) };
}

/// The bodies of a font's glyphs beside those of its Subrs.
pub trait StoredBodies: Bodies {
    ghost use Rattle.std.specs.Option.{option_copied};

    /// The body of the glyph of this name.
    fn glyph(&self, name: &[u8]) -> Option<&[Command]>
        ensures { option_copied result ≡ Self.glyphs self.now name.now };
}
