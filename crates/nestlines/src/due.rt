// The line that is due, and whether a line is of its sort.
ghost use Rattle.std.specs.Prelude.{◌≡◌, true};
ghost use Rattle.nestformat.specs.Reading.{of_sort, skipped, sort_refusal};
ghost use Rattle.nestlines.specs.Sorts.{slot_of, begins};

use nestformat::kinds::Contents;
use refusals::Refusal;

#[derive(Clone, Copy, PartialEq, Eq, Debug)]
pub enum Due {
    Heading,
    Contents,
    // the line that opens the body of this entry
    Body(Contents),
    // its map, and any other of its rows
    Map(Contents),
    Row(Contents),
    End,
}

// What a line is, by the first character that is no space.
#[derive(Clone, Copy, PartialEq, Eq, Debug)]
pub enum Sort {
    Comment,
    Heading,
    Contents,
    Body,
    Row,
    // none that a nest file may have
    Other,
}

fn sort_of(first: u8) -> Sort
    ensures { begins result first ≡ true }
{
    match char::from(first) {
        'c' => Sort::Comment,
        'p' => Sort::Heading,
        't' => Sort::Contents,
        'b' => Sort::Body,
        '0'..='9' | '-' => Sort::Row,
        _ => Sort::Other,
    }
}

// A comment or a blank line, by the first character that is no space.
pub fn is_skipped(first: Option<u8>) -> bool
    ensures { result ≡ skipped first }
{
    match first {
        None => true,
        Some(byte) => sort_of(byte) == Sort::Comment,
    }
}

impl Due {
    // Whether the line is of the sort due, by the first character that is no space.
    pub fn is_of_sort(self, first: Option<u8>) -> bool
        ensures { result ≡ of_sort (slot_of self) first }
    {
        let Some(byte) = first else {
            return false;
        };
        let sort = sort_of(byte);
        match self {
            Due::Heading => sort == Sort::Heading,
            Due::Contents => sort == Sort::Contents,
            Due::Body(_) => sort == Sort::Body,
            Due::Map(_) | Due::Row(_) => sort == Sort::Row,
            Due::End => false,
        }
    }

    // The refusal of a line of another sort.
    pub fn sort_refusal(self) -> Refusal
        ensures { result ≡ sort_refusal (slot_of self) }
    {
        match self {
            Due::Heading => Refusal::BadHeading,
            Due::Contents => Refusal::BadContents,
            Due::Body(_) | Due::Map(_) | Due::Row(_) => Refusal::BadBody,
            Due::End => Refusal::BadEnd,
        }
    }
}
