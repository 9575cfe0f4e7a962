// The trait that every veto has.
ghost use Rattle.std.specs.Prelude.{◌≡◌};
ghost use Rattle.vetoes.specs.Meaning.{Meaning, Lawful};
ghost use Rattle.vetoes.specs.Verdicts.{Examined, TicksOf, Reason};

use refusals::Refusal;

#[derive(Clone, Copy, PartialEq, Eq, Debug)]
pub enum Verdict {
    Speaks,
    Silent,
}

pub trait Veto {
    ghost means: { Self → Meaning };

    fn reach(&self) -> usize
        ensures { result ≡ (means self.now).reach };

    // Whether the veto speaks at the assignment. Where it speaks it ticks a reason: known atoms, one byte for each,
    // which alone make a part at which it still speaks.
    fn examine(&mut self, assignment: &[u8], ticks: &mut [u8]) -> Result<Verdict, Refusal>
        ensures meaning { means self.new ≡ means self.old }
        ensures answer { Examined (means self.old).speaks assignment.now ticks.old ticks.new result }
        ensures ticks { TicksOf assignment.now ticks.old ticks.new result }
        ensures reason { Reason (means self.old).speaks assignment.now ticks.new result };

    ghost lawful: { (v : Self) → Lawful (means v) };
}
