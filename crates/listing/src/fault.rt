// Why a text is not played.
ghost use Rattle.std.specs.Prelude.{◌≡◌, Some};
ghost use Rattle.listing.specs.declared.fault.TextFault.TheVariants as fault;
ghost use Rattle.listing.specs.Faults.{fault_text};

use settings::fault::RunFault;
use std::alloc::AllocError;
use std::error::Error;
use std::fmt;

// The first byte, by its place from 0, that is no white space and no digit of a number below 2^32.
#[derive(Clone, Copy, PartialEq, Eq, Debug)]
pub struct BadByte {
    pub at: usize,
}

#[derive(Clone, Copy, PartialEq, Eq, Debug)]
pub enum TextFault {
    // The first word names no policy.
    NoPolicy,
    // A byte is part of no number.
    Malformed(BadByte),
    // There is no number of frames.
    NoFrames,
    // There is no number of frames, or no size of the front queue.
    TooFewNumbers,
    // The numbers are no settings.
    Refused(RunFault),
    OutOfMemory(AllocError),
}

impl fmt::Display for TextFault {
    ghost output = { λ e. Some (fault_text e) };

    fn fmt<W: fmt::Write>(&self, f: &mut fmt::Formatter<W>) -> fmt::Result {
        match self {
            TextFault::NoPolicy => f.write_str("no policy: the first word is fifo, lru or clock"),
            TextFault::Malformed(BadByte { at }) => {
                write!(
                    f,
                    "malformed input: byte {at} is part of no number below 4294967296"
                )
            }
            TextFault::NoFrames => {
                f.write_str("no frames: the first number says how many there are")
            }
            TextFault::TooFewNumbers => f.write_str(
                "too few numbers: the frames and the size of the front queue come first",
            ),
            TextFault::Refused(fault) => write!(f, "no {}", fault.number()),
            TextFault::OutOfMemory(_) => f.write_str("out of memory"),
        }
    }
}

impl Error for TextFault {}

impl From<BadByte> for TextFault {
    ghost from_gives = { λ e r. r ≡ fault.Malformed e };

    fn from(e: BadByte) -> TextFault {
        TextFault::Malformed(e)
    }
}

impl From<RunFault> for TextFault {
    ghost from_gives = { λ e r. r ≡ fault.Refused e };

    fn from(e: RunFault) -> TextFault {
        TextFault::Refused(e)
    }
}

impl From<AllocError> for TextFault {
    ghost from_gives = { λ e r. r ≡ fault.OutOfMemory e };

    fn from(e: AllocError) -> TextFault {
        TextFault::OutOfMemory(e)
    }
}
