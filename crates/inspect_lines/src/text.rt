ghost use Rattle.std.specs.Prelude.{◌≡◌, ◌++◌, ℕ, List, OnOk, string_bytes};
ghost use Rattle.inspect_lines.specs.Lines.{IsLineOf};

use std::alloc::AllocError;
use std::fmt::Display;

/// What a line that is no hexadecimal is answered with.
pub const NOT_HEXADECIMAL: &str = "not hexadecimal";

/// One line more of a text.
pub fn push_line<T: Display>(text: &mut String, said: &T) -> Result<(), AllocError>
    ensures { OnOk result ((part : List ℕ) × IsLineOf (T.output said.now) part
        × (string_bytes text.new ≡ string_bytes text.old ++ part)) }
{
    let line = said.to_string(*text.allocator())?;
    text.push_str(&line)?;
    text.push('\n')
}
