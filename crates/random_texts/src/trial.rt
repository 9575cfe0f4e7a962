// The library and the plain reader over the same texts: what is answered, and whether both agree in every byte.
use crate::reading;
use nestfile::Problem;
use nestfile::reading::read;
use nestwrite::write;
use refusals::{Fault, Refusal};
use std::alloc::{AllocError, Global};

// As many as a text may have, and some more.
const BYTES: usize = 60_000 + MORE;

const MORE: usize = 3;

// What a buffer holds before it is written to.
const UNTOUCHED: u8 = 7;

// The problem that a refused reading leaves.
const EMPTY: &[u8] = b"p nest 1 1\nt o 0 0 0\nb o 1\n";

#[derive(Clone, Copy)]
pub struct Outcome {
    pub answer: Result<(), Fault>,
    pub right: bool,
}

#[derive(Drop)]
pub struct Trial {
    heap: Global,
    problem: Problem,
    buffer: Vec<u8>,
}

impl Trial {
    pub fn new(heap: Global) -> Result<Trial, AllocError> {
        Ok(Trial {
            heap,
            problem: Problem::empty(),
            buffer: vec![in heap; 0; BYTES]?,
        })
    }

    // Whether exactly this is written of the problem that was read last, and the bytes behind it stay.
    fn is_written(&mut self, text: &[u8]) -> bool {
        let longer = text.len().saturating_add(MORE);
        let all = self.buffer.as_mut_slice();
        let Some((buffer, _)) = all.split_at_mut_checked(longer) else {
            return false;
        };
        buffer.fill(UNTOUCHED);
        if write(&self.problem, buffer) != Ok(text.len()) {
            return false;
        }
        match buffer.strip_prefix(text) {
            Some(rest) => rest.iter().all(|byte| *byte == UNTOUCHED),
            None => false,
        }
    }

    // Whether a buffer that is a byte shorter than the text is refused, and stays.
    fn is_short_refused(&mut self, text: &[u8]) -> bool {
        let shorter = text.len().saturating_sub(1);
        let all = self.buffer.as_mut_slice();
        let Some((buffer, _)) = all.split_at_mut_checked(shorter) else {
            return false;
        };
        buffer.fill(UNTOUCHED);
        let answer = write(&self.problem, buffer);
        answer == Err(Refusal::BufferShort) && buffer.iter().all(|byte| *byte == UNTOUCHED)
    }

    // Whether what is written of a problem is read, and written alike.
    fn reads_back(&mut self, text: &[u8]) -> bool {
        read(text, &mut self.problem).is_ok()
            && self.is_written(text)
            && self.is_short_refused(text)
    }

    // A refused reading is to leave the empty problem, whatever was read before it.
    pub fn read(&mut self, text: &[u8]) -> Result<Outcome, AllocError> {
        let due = reading::read(self.heap, text)?;
        let answer = read(text, &mut self.problem);
        let right = match due {
            Ok(model) => {
                let written = format!(in self.heap; "{model}")?;
                let written = written.as_bytes();
                answer.is_ok() && self.is_written(written) && self.reads_back(written)
            }
            Err(fault) => answer == Err(fault) && self.is_written(EMPTY),
        };
        Ok(Outcome { answer, right })
    }

    // A text that was written of a problem is to be written as it is, where it is accepted.
    pub fn read_drawn(&mut self, text: &[u8]) -> Result<Outcome, AllocError> {
        let outcome = self.read(text)?;
        let right = outcome.right && (outcome.answer.is_err() || self.is_written(text));
        Ok(Outcome { right, ..outcome })
    }
}
