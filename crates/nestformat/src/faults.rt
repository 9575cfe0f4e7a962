// What is wrong with a line, before its place is known.
ghost use Rattle.std.specs.Prelude.{◌≡◌};
ghost use Rattle.nestformat.specs.Faults.{plain, told_at};

use refusals::{Fault, Refusal};

#[derive(Clone, Copy, PartialEq, Eq, Debug)]
pub struct LineFault {
    pub refusal: Refusal,
    pub cause: Option<Refusal>,
}

impl LineFault {
    // A refusal that nothing below causes.
    pub fn plain(refusal: Refusal) -> LineFault
        ensures { result ≡ plain refusal }
    {
        LineFault {
            refusal,
            cause: None,
        }
    }

    // The fault with the number of its line and the letter of the body that it stands in.
    pub fn at(self, line: usize, body: char) -> Fault
        ensures { result ≡ told_at self line body }
    {
        Fault {
            refusal: self.refusal,
            cause: self.cause,
            line,
            body,
        }
    }
}
