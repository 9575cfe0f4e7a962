// Bytes printed one after the other: an assignment with unknown atoms as 2, or ticks.
#![tactic(auto)]

ghost use Rattle.std.specs.Prelude.{Some, decimal, flat_map};

use std::fmt;

#[derive(Clone, Copy)]
pub struct Digits<'a>(pub &'a [u8]);

impl fmt::Display for Digits<'_> {
    ghost output = { λ digits. Some (flat_map decimal digits.0.now) };

    fn fmt<W: fmt::Write>(&self, f: &mut fmt::Formatter<W>) -> fmt::Result {
        for byte in self.0 {
            write!(f, "{byte}")?;
        }
        Ok(())
    }
}
