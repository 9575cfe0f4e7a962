// What the library answers to a text: what it writes of the problem, or the line of its fault.
use answers::FaultLine;
use nestfile::Problem;
use nestfile::reading::read;
use nestwrite::write;
use std::alloc::{AllocError, Global};

const BYTES: usize = 60_000;

// A problem with all kinds of bodies, read before each text, so that a refusal has something to take back.
const FULL: &[u8] =
    b"p nest 200 6\nt o 3 0 1\nt n 2 1 2\nt m 1 0 2\nt l 4 0 1\nt d 500 0 1\nt w 16 0 1\nb o 200\n1 2 0\n\
b n 200\n1 3 0\n-2 0\nb m 200\n3 0\n1 0\nb l 200\n1 2 3 0\nb d 200\n2 300 0\nb w 200\n3 5 0\n";

// The problem that a refused reading leaves.
const EMPTY: &[u8] = b"p nest 1 1\nt o 0 0 0\nb o 1\n";

#[derive(Drop)]
pub(crate) struct Reader {
    heap: Global,
    problem: Problem,
    buffer: Vec<u8>,
}

impl Reader {
    pub(crate) fn new(heap: Global) -> Result<Reader, AllocError> {
        Ok(Reader {
            heap,
            problem: Problem::empty(),
            buffer: vec![in heap; 0; BYTES]?,
        })
    }

    // What is written of the problem that was read last.
    fn written(&mut self) -> &[u8] {
        match write(&self.problem, self.buffer.as_mut_slice()) {
            Ok(count) => self.buffer.get(..count).unwrap_or(&[]),
            Err(_) => &[],
        }
    }

    // Whether the text is answered so, a refusal leaving the empty problem.
    pub(crate) fn is_answered(&mut self, text: &[u8], answer: &[u8]) -> Result<bool, AllocError> {
        if read(FULL, &mut self.problem).is_err() || self.written() != FULL {
            return Ok(false);
        }
        match read(text, &mut self.problem) {
            Ok(()) => Ok(self.written() == answer),
            Err(fault) => self.is_told(FaultLine(fault), answer),
        }
    }

    fn is_told(&mut self, fault: FaultLine, answer: &[u8]) -> Result<bool, AllocError> {
        let line = format!(in self.heap; "{fault}\n")?;
        Ok(line.as_bytes() == answer && self.written() == EMPTY)
    }
}
