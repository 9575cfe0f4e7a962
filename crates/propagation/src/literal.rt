// One literal at a partial assignment.
ghost use Rattle.std.specs.Prelude.{◌≡◌};
ghost use Rattle.propagation.specs.Literals.{wanted as «wanted_by»};
ghost use Rattle.propagation.specs.States.{Looked};

use crate::wanted::Wanted;
use assignments::Literal;
use assignments::literals::place_of;

// What a literal is; open with what makes it true.
#[derive(Clone, Copy, PartialEq, Eq, Debug)]
pub enum Look {
    Holds,
    Fails,
    Open(Wanted),
}

// The value that makes the literal true.
pub fn wanted(literal: Literal) -> u8
    ensures { result ≡ «wanted_by» literal }
{
    u8::from(literal >= 0)
}

// What the literal is for all that extends the assignment. Places before `from` are frozen: an unknown atom there stays so.
pub fn look_at(literal: Literal, assignment: &[u8], from: usize) -> Look
    ensures { Looked from assignment.now literal result }
{
    let Some(place) = place_of(literal, assignment.len()) else {
        return Look::Fails;
    };
    let value = wanted(literal);
    if assignment[place] > 1 {
        if place < from {
            return Look::Fails;
        }
        return Look::Open(Wanted { place, value });
    }
    if assignment[place] == value {
        return Look::Holds;
    }
    Look::Fails
}
