// Printed lines, each with its line end.
ghost use Rattle.std.specs.Prelude.{Some};
ghost use Rattle.listing.specs.Lines.{answer_line, end_line};

use run::answer::{Answer, Figures, Outcome};
use std::fmt;

// The answer to an event of a page, with its line end. An accepted release prints nothing.
#[derive(Clone, Copy)]
pub struct Line {
    pub page: u32,
    pub answer: Answer,
}

impl fmt::Display for Line {
    ghost output = { λ l. Some (answer_line l.page l.answer) };

    fn fmt<W: fmt::Write>(&self, f: &mut fmt::Formatter<W>) -> fmt::Result {
        match self.answer {
            Ok(Outcome::Hit) => writeln!(f, "h {}", self.page),
            Ok(Outcome::Fault) => writeln!(f, "f {}", self.page),
            Ok(Outcome::Replaced(out)) => writeln!(f, "f {} {out}", self.page),
            Ok(Outcome::Released) => Ok(()),
            Err(fault) => writeln!(f, "no {}", fault.number()),
        }
    }
}

// What a run came to, with its line end.
#[derive(Clone, Copy)]
pub struct End {
    pub figures: Figures,
}

impl fmt::Display for End {
    ghost output = { λ e. Some (end_line e.figures) };

    fn fmt<W: fmt::Write>(&self, f: &mut fmt::Formatter<W>) -> fmt::Result {
        let Figures {
            touches,
            faults,
            outs,
        } = self.figures;
        writeln!(f, "end {touches} {faults} {outs}")
    }
}
