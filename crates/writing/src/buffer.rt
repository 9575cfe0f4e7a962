// Bytes and numbers put to a text.
ghost use Rattle.std.specs.Prelude.{◌≡◌, []};
ghost use Rattle.writing.specs.Texts.{joined, Copied};
ghost use Rattle.writing.specs.Buffers.{held};

use crate::TextOut;
use itoa::{Buffer, Integer};
use nestformat::TEXT_LIMIT;
use refusals::Refusal;
use tables::Table;

impl TextOut {
    pub fn new() -> TextOut
        ensures { held result ≡ [] }
    {
        let bytes = Table::new(0);
        TextOut { bytes }
    }

    // Puts the bytes to the text, as far as there is room.
    pub fn put(&mut self, bytes: &[u8])
        ensures { held self.new ≡ joined (held self.old) bytes.now }
    {
        let room = TEXT_LIMIT - self.bytes.as_slice().len();
        let count = room.min(bytes.len());
        let _ = self.bytes.extend(&bytes[..count]);
    }

    pub fn put_number<I: Integer>(&mut self, number: I)
        ensures { held self.new ≡ joined (held self.old) (I.text number) }
    {
        let mut digits = Buffer::new();
        self.put(digits.format(number).as_bytes());
    }

    // Copies the text to the front of the buffer, and returns its length.
    pub fn copy_to(&self, buffer: &mut [u8]) -> Result<usize, Refusal>
        ensures { Copied (held self.now) buffer.old buffer.new result }
    {
        let text = self.bytes.as_slice();
        if text.len() > buffer.len() {
            return Err(Refusal::BufferShort);
        }
        buffer[..text.len()].copy_from_slice(text);
        Ok(text.len())
    }
}
