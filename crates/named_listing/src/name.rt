// The policies by name.
ghost use Rattle.std.specs.Prelude.{◌≡◌, ◌≤◌, length};
ghost use Rattle.named_listing.specs.Names.{Named, word_end};

use listing::fault::TextFault;
use listing::read::is_space;

#[derive(Clone, Copy, PartialEq, Eq, Debug)]
pub enum PolicyName {
    Fifo,
    Lru,
    Clock,
}

impl TryFrom<&[u8]> for PolicyName {
    type Error = TextFault;

    ghost try_from_gives = { λ word r. Named word.now r };

    // The policy that a word names. Keywords are read by slice patterns in this project, the first byte
    // named and the rest matched.
    fn try_from(word: &[u8]) -> Result<PolicyName, TextFault> {
        match word {
            [b'f', rest @ ..] => match rest {
                b"ifo" => Ok(PolicyName::Fifo),
                _ => Err(TextFault::NoPolicy),
            },
            [b'l', rest @ ..] => match rest {
                b"ru" => Ok(PolicyName::Lru),
                _ => Err(TextFault::NoPolicy),
            },
            [b'c', rest @ ..] => match rest {
                b"lock" => Ok(PolicyName::Clock),
                _ => Err(TextFault::NoPolicy),
            },
            _ => Err(TextFault::NoPolicy),
        }
    }
}

// The place of the first white space, or the end of the text.
pub(crate) fn first_space(text: &[u8]) -> usize
    ensures end { result ≡ word_end text.now }
    ensures within { result ≤ length text.now }
{
    text.iter()
        .position(|byte| is_space(*byte))
        .unwrap_or(text.len())
}
