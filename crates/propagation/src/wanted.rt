// What makes a literal or a clause true: a value for the atom at a place.

#[derive(Clone, Copy, PartialEq, Eq, Debug)]
pub struct Wanted {
    pub place: usize,
    pub value: u8,
}
