// What is answered to wishes, as lines.
use answers::FaultLine;
use assignments::Literal;
use listing::line::Line;
use refusals::Fault;
use std::fmt;
use std::process::ExitCode;

#[derive(Drop)]
pub(crate) enum Answer {
    // the least setting that has them all
    Setting(Line),
    // those that clash, in the order in which they are wished; none is needed where nothing is admitted
    Clash(Vec<Literal>),
    Refused(Fault),
}

// As a line each.
#[derive(Clone, Copy)]
struct Clashing<'a>(&'a [Literal]);

impl fmt::Display for Clashing<'_> {
    fn fmt<W: fmt::Write>(&self, f: &mut fmt::Formatter<W>) -> fmt::Result {
        for wish in self.0 {
            writeln!(f, "clash {wish}")?;
        }
        Ok(())
    }
}

impl fmt::Display for Answer {
    fn fmt<W: fmt::Write>(&self, f: &mut fmt::Formatter<W>) -> fmt::Result {
        match self {
            Answer::Setting(line) => writeln!(f, "{line}"),
            Answer::Clash(wishes) if wishes.is_empty() => writeln!(f, "none"),
            Answer::Clash(wishes) => write!(f, "{}", Clashing(wishes.as_slice())),
            Answer::Refused(fault) => writeln!(f, "{}", FaultLine(*fault)),
        }
    }
}

impl Answer {
    pub(crate) fn status(&self) -> ExitCode {
        match self {
            Answer::Setting(_) | Answer::Clash(_) => ExitCode::SUCCESS,
            Answer::Refused(_) => ExitCode::FAILURE,
        }
    }
}
