// A text of numbers parted by white space.
ghost use Rattle.std.specs.Prelude.{◌≡◌};
ghost use Rattle.listing.specs.Numbers.{Finds, ReadsBack, ReadsBackBehind, ReadsPlain, ReadsPlainBehind, grown, is_space, numbers_behind, numbers_in};

use crate::fault::{BadByte, TextFault};
use std::alloc::{AllocError, Global};

// A space, a line end, a carriage return or a tab.
pub fn is_space(byte: u8) -> bool
    ensures { result ≡ is_space byte }
{
    matches!(byte, b' ' | b'\n' | b'\r' | b'\t')
}

// What a digit makes of the number before it, where that fits 32 bits.
fn grown(word: Option<u32>, byte: u8) -> Option<u32>
    ensures { result ≡ grown word byte }
{
    let digit = char::from(byte).to_digit(10)?;
    word.unwrap_or(0).checked_mul(10)?.checked_add(digit)
}

// The numbers of a text from a place on, in order, or the first bad byte from there.
#[tactic(auto, using(crate::proofs::ReadBack::reads_back_behind, crate::proofs::ReadBack::reads_plain_behind))]
pub fn numbers_behind(heap: Global, text: &[u8], start: usize) -> Result<Vec<u32>, TextFault>
    ensures found { Finds result (numbers_behind start text.now) }
    ensures back { ReadsBackBehind }
    ensures plain { ReadsPlainBehind }
{
    let mut found = Vec::new(heap);
    let mut word = None;
    let rest = text.get(start..).unwrap_or_default();
    for (ahead, byte) in rest.iter().enumerate() {
        if is_space(*byte) {
            if let Some(number) = word {
                found.push(number).map_err(AllocError::from)?;
                word = None;
            }
        } else {
            word = Some(grown(word, *byte).ok_or(BadByte { at: start + ahead })?);
        }
    }
    if let Some(number) = word {
        found.push(number).map_err(AllocError::from)?;
    }
    Ok(found)
}

// The numbers of a whole text, in order, or its first bad byte: one line over `numbers_behind`.
#[tactic(auto, using(crate::proofs::ReadBack::reads_back, crate::proofs::ReadBack::reads_plain))]
pub fn numbers(heap: Global, text: &[u8]) -> Result<Vec<u32>, TextFault>
    ensures found { Finds result (numbers_in text.now) }
    ensures back { ReadsBack }
    ensures plain { ReadsPlain }
{
    numbers_behind(heap, text, 0)
}
