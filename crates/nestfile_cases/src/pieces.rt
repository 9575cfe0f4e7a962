// Texts that are told by their pieces: a line `COUNT TEXT` is so many lines with the text; a backslash at its end takes their line
// ends away.
use anyhow::Context;
use std::alloc::{AllocError, Global};

fn repeat(text: &mut Vec<u8>, count: u32, piece: &[u8]) -> Result<(), AllocError> {
    for _ in 0..count {
        text.extend_from_slice(piece)?;
    }
    Ok(())
}

fn add(text: &mut Vec<u8>, heap: Global, line: &str) -> anyhow::Result<()> {
    let (count, piece) = line
        .split_once(' ')
        .context("a line of pieces has no count")?;
    let count = count.parse::<u32>()?;
    match piece.strip_suffix('\\') {
        Some(piece) => repeat(text, count, piece.as_bytes())?,
        None => {
            let line = format!(in heap; "{piece}\n")?;
            repeat(text, count, line.as_bytes())?;
        }
    }
    Ok(())
}

pub(crate) fn joined(heap: Global, pieces: &str) -> anyhow::Result<Vec<u8>> {
    let mut text = Vec::new(heap);
    for line in pieces.lines() {
        add(&mut text, heap, line)?;
    }
    Ok(text)
}
