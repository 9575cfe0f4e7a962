// A call of a session as a value, with what came back.
ghost use Rattle.std.specs.Prelude.{◌≡◌};
ghost use Rattle.runs.specs.Histories.{step_done, wish_done};

use assignments::Literal;
use refusals::Refusal;
use session::table::{Step, Wish};

// A call with its arguments. A buffer is written in place.
#[derive(Drop)]
pub enum Call {
    Size(usize),
    Clause(Vec<Literal>),
    Open,
    Close,
    Rewind,
    // the buffer for the assignment
    Next(Vec<u8>),
    // the assumptions, the buffer for the assignment, and one tick for each assumption
    Ask(Vec<Literal>, Vec<u8>, Vec<u8>),
}

// What a call that is not refused did.
#[derive(Clone, Copy, PartialEq, Eq, Debug)]
pub enum Done {
    Accepted,
    // next: the assignment stands in the buffer
    Handed,
    NoMore,
    // ask: the assignment stands in the buffer
    Chosen,
    // ask: none, and the ticks mark a minimal core
    Clash,
}

impl From<Step> for Done {
    ghost from_gives = { λ step done. done ≡ step_done step };

    fn from(step: Step) -> Done {
        match step {
            Step::Handed => Done::Handed,
            Step::NoMore => Done::NoMore,
        }
    }
}

impl From<Wish> for Done {
    ghost from_gives = { λ wish done. done ≡ wish_done wish };

    fn from(wish: Wish) -> Done {
        match wish {
            Wish::Chosen => Done::Chosen,
            Wish::Clash => Done::Clash,
        }
    }
}

// What came back.
pub type Reply = Result<Done, Refusal>;

// A call, and the reply once it has been played. What stands there before is not read.
#[derive(Drop)]
pub struct Turn {
    pub call: Call,
    pub reply: Reply,
}
