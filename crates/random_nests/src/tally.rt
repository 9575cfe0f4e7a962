// How many nests were asked, and what they answered.
use refusals::Refusal;
use std::fmt;
use vetoes::veto::Verdict;

#[derive(Drop)]
pub(crate) struct Tally {
    nests: u32,
    speaks: u32,
    silent: u32,
    refused: u32,
    mismatches: u32,
}

fn one_more(number: &mut u32) {
    *number = number.saturating_add(1);
}

impl Tally {
    pub(crate) fn new() -> Tally {
        Tally {
            nests: 0,
            speaks: 0,
            silent: 0,
            refused: 0,
            mismatches: 0,
        }
    }

    // A nest whose shape and reach are right or not.
    pub(crate) fn add_nest(&mut self, right: bool) {
        one_more(&mut self.nests);
        if !right {
            one_more(&mut self.mismatches);
        }
    }

    pub(crate) fn add_answer(&mut self, answer: Result<Verdict, Refusal>, right: bool) {
        match answer {
            Ok(Verdict::Speaks) => one_more(&mut self.speaks),
            Ok(Verdict::Silent) => one_more(&mut self.silent),
            Err(_) => one_more(&mut self.refused),
        }
        if !right {
            one_more(&mut self.mismatches);
        }
    }

    pub(crate) fn mismatches(&self) -> u32 {
        self.mismatches
    }
}

impl fmt::Display for Tally {
    fn fmt<W: fmt::Write>(&self, f: &mut fmt::Formatter<W>) -> fmt::Result {
        write!(f, "{} nests; ", self.nests)?;
        write!(f, "speaks {}, silent {}, ", self.speaks, self.silent)?;
        write!(
            f,
            "refused {}; mismatches {}",
            self.refused, self.mismatches
        )
    }
}
