// From the text of a trace to the text of its answers.
ghost use Rattle.std.specs.Prelude.{◌≡◌, map, IfSome, IfOk, Some, string_bytes};
ghost use Rattle.run.specs.declared.answer.Event.TheVariants.{Touch};
ghost use Rattle.settings.specs.Checks.{seen, checked};
ghost use Rattle.listing.specs.Faults.{told_of};
ghost use Rattle.listing.specs.Listing.{numbers_with, printed, played_over, listing_of};

use crate::fault::TextFault;
use crate::print::{End, Line};
use crate::read::numbers;
use ordered::order::PageOrder;
use policy::policy::Policy;
use run::answer::{Answer, Event};
use run::play::{Played, play};
use settings::fault::RunFault;
use settings::numbers::Numbers;
use settings::settings::Settings;
use std::alloc::{AllocError, Global};

// Settings of a run of so many frames, with a front queue of so many pages. A listing's run uses no
// other number, so the others are any that are accepted.
pub fn settings_with(frames: u32, front: u32) -> Result<Settings, RunFault>
    ensures { seen result ≡ checked (numbers_with frames front) }
{
    Settings::try_from(Numbers {
        frames,
        long: 20,
        behind: 20,
        nth: 1,
        tracked: 200,
        front,
    })
}

// A touch of each page.
fn touches(heap: Global, pages: &[u32]) -> Result<Vec<Event>, AllocError>
    ensures { IfOk result (λ v. v.items ≡ map Touch pages.now) }
{
    pages.iter().copied().map(Event::Touch).collect(heap)
}

// A line for each page with its answer.
fn lines(heap: Global, pages: &[u32], answers: &[Answer]) -> Result<String, AllocError>
    ensures { IfOk result (λ s. string_bytes s ≡ printed pages.now answers.now) }
{
    let mut out = String::new(heap);
    for (page, answer) in pages.iter().zip(answers) {
        let line = Line {
            page: *page,
            answer: *answer,
        };
        write!(out, "{line}")?;
    }
    Ok(out)
}

// Plays the pages over a policy: a line for each touch, and then the totals. Settings and pages stay
// two parameters: a struct of both would be built for this one call, and its clause would be longer.
pub fn play_over<P: Policy + Drop>(
    heap: Global,
    settings: Settings,
    policy: P,
    pages: &[u32],
) -> Result<String, AllocError>
    ensures { IfOk result (λ s. string_bytes s ≡ played_over P.model settings.frames policy pages.now) }
{
    let events = touches(heap, pages)?;
    let Played { answers, run } = play(heap, settings, policy, &events)?;
    let mut out = lines(heap, pages, &answers)?;
    let end = End {
        figures: run.close().figures(),
    };
    write!(out, "{end}")?;
    Ok(out)
}

// What is told of a text: the lines that it was played to, or the one of its fault. Where memory ran
// out, nothing is told: that fault alone is handed on, so the cases are told apart by a match.
pub fn told(heap: Global, played: Result<String, TextFault>) -> Result<String, AllocError>
    ensures { IfOk result (λ s. told_of played ≡ Some (string_bytes s)) }
{
    match played {
        Ok(lines) => Ok(lines),
        Err(TextFault::OutOfMemory(e)) => Err(e),
        Err(fault) => format!(in heap; "{fault}\n"),
    }
}

// Plays a text over FIFO. The first number is the number of frames, and the others are pages.
fn played(heap: Global, text: &[u8]) -> Result<String, TextFault>
    ensures { IfSome (told_of result) (λ bs. bs ≡ listing_of text.now) }
{
    let numbers = numbers(heap, text)?;
    let [frames, pages @ ..] = numbers.as_slice() else {
        return Err(TextFault::NoFrames);
    };
    let settings = settings_with(*frames, 0)?;
    let policy = fifo::make(heap)?;
    Ok(play_over(heap, settings, policy, pages)?)
}

// The lines that a text asks for. This is the one line that both kinds of text have alike.
pub fn listing(heap: Global, text: &[u8]) -> Result<String, AllocError>
    ensures { IfOk result (λ s. string_bytes s ≡ listing_of text.now) }
{
    told(heap, played(heap, text))
}

#[cfg(test)]
mod tests {
    use super::*;
    use std::test::Fail;

    // Each text with what is printed of it.
    const CASES: [(&[u8], &str); 7] = [
        (b"2 1 2 1 3", "f 1\nf 2\nh 1\nf 3 1\nend 4 3 1\n"),
        (
            b"\t1 4096\n7 70000 7\r\n",
            "no 1\nf 7\nno 1\nh 7\nend 2 1 0\n",
        ),
        (b"1025 1", "no 3\n"),
        (b"0", "no 3\n"),
        (
            b" \n",
            "no frames: the first number says how many there are\n",
        ),
        (
            b"2 1 x",
            "malformed input: byte 4 is part of no number below 4294967296\n",
        ),
        (
            b"1 4294967296",
            "malformed input: byte 11 is part of no number below 4294967296\n",
        ),
    ];

    #[test]
    fn tells_a_fault_by_its_line(rt: HostRuntime) -> Result<(), Fail> {
        let line = told(rt.alloc(), Err(TextFault::TooFewNumbers))?;
        assert_eq!(rt;
            line.as_str(),
            "too few numbers: the frames and the size of the front queue come first\n"
        );
        Ok(())
    }

    #[test]
    fn prints_what_each_text_asks_for(rt: HostRuntime) -> Result<(), Fail> {
        for (text, lines) in CASES.iter() {
            let printed = listing(rt.alloc(), text)?;
            assert_eq!(rt; printed.as_str(), *lines);
        }
        Ok(())
    }
}
