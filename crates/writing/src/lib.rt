// A text in the making: bytes, numbers and lines are put to it, in fixed memory.
#![tactic(auto)]

mod buffer;
mod lines;

use nestformat::TEXT_LIMIT;
use tables::Table;

#[derive(Drop)]
pub struct TextOut {
    bytes: Table<u8, TEXT_LIMIT>,
}
