// The veto that never speaks.
ghost use Rattle.std.specs.Prelude.{false};
ghost use Rattle.vetoes.specs.Meaning.{silent};
ghost use Rattle.std.proofs.Common.{rules};

use crate::marks::answer;
use crate::veto::{Verdict, Veto};
use refusals::Refusal;

#[derive(Drop)]
pub struct Mute;

impl Veto for Mute {
    ghost means = { λ _. silent };

    ghost lawful = { Prim.search rules };

    fn reach(&self) -> usize {
        0
    }

    fn examine(&mut self, assignment: &[u8], ticks: &mut [u8]) -> Result<Verdict, Refusal> {
        answer(None, assignment, ticks)
    }
}
