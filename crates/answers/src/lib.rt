// The line that tells users why a text or a call is refused.
#![tactic(auto)]

ghost use Rattle.std.specs.Prelude.{Some};
ghost use Rattle.answers.specs.Lines.{cause_text, fault_text};

use refusals::{Fault, Refusal};
use std::fmt;

// A fault, shown as its line without the line end.
#[derive(Clone, Copy)]
pub struct FaultLine(pub Fault);

// What follows the refusal's text.
#[derive(Clone, Copy)]
struct Cause(Option<Refusal>);

impl fmt::Display for Cause {
    ghost output = { λ cause. Some (cause_text cause.0) };

    fn fmt<W: fmt::Write>(&self, f: &mut fmt::Formatter<W>) -> fmt::Result {
        match self.0 {
            Some(refusal) => write!(f, ", {refusal}"),
            None => Ok(()),
        }
    }
}

impl fmt::Display for FaultLine {
    ghost output = { λ line. Some (fault_text line.0) };

    fn fmt<W: fmt::Write>(&self, f: &mut fmt::Formatter<W>) -> fmt::Result {
        let Fault {
            refusal,
            cause,
            line,
            body,
        } = self.0;
        let number = refusal.number();
        let cause = Cause(cause);
        write!(
            f,
            "refused {number} line {line} body {body}: {refusal}{cause}"
        )
    }
}
