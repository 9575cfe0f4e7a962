// Lines put to a text: their tokens with single spaces, and a line end.
ghost use Rattle.std.specs.Prelude.{◌≡◌};
ghost use Rattle.nestformat.specs.Items.{heading_line, contents_line, body_line, item_line};
ghost use Rattle.nestformat.specs.Kinds.{letter_of};
ghost use Rattle.writing.specs.Texts.{joined, ended, row_tokens};
ghost use Rattle.writing.specs.Buffers.{held};

use crate::TextOut;
use itoa::Integer;
use nestformat::kinds::{BodyKind, Contents, Heading};

impl TextOut {
    pub fn put_heading(&mut self, heading: Heading)
        ensures { held self.new ≡ joined (held self.old) (ended (item_line (heading_line heading))) }
    {
        self.put(b"p nest ");
        self.put_number(heading.map);
        self.put(b" ");
        self.put_number(heading.bodies);
        self.put(b"\n");
    }

    pub fn put_contents(&mut self, entry: Contents)
        ensures { held self.new ≡ joined (held self.old) (ended (item_line (contents_line entry))) }
    {
        self.put(b"t ");
        self.put(&[letter(entry.kind), b' ']);
        self.put_number(entry.size);
        self.put(b" ");
        self.put_number(entry.own);
        self.put(b" ");
        self.put_number(entry.rows);
        self.put(b"\n");
    }

    pub fn put_body_line(&mut self, kind: BodyKind, map: u16)
        ensures { held self.new ≡ joined (held self.old) (ended (item_line (body_line kind map))) }
    {
        self.put(b"b ");
        self.put(&[letter(kind), b' ']);
        self.put_number(map);
        self.put(b"\n");
    }

    // The numbers of a row, and the 0 that closes it.
    pub fn put_row<I: Integer>(&mut self, numbers: &[I])
        ensures { held self.new ≡ joined (held self.old) (ended (row_tokens I.text numbers.now)) }
    {
        for number in numbers {
            self.put_number(*number);
            self.put(b" ");
        }
        self.put(b"0\n");
    }
}

// The letter as a byte.
fn letter(kind: BodyKind) -> u8
    ensures { result ≡ letter_of kind }
{
    kind.letter() as u8
}
