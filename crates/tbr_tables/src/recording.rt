//! What is recorded from the beginning of a table to its end.
ghost use Rattle.std.specs.Prelude.{◌≡◌, chars, IfOk, OnOk};
ghost use Rattle.tbr_tables.specs.Recorded.{nothing_recorded, with_step, calls_in};
ghost use Rattle.tbr_tables.specs.Ruler.{room_of};

use crate::drawing::drawn;
use crate::drawn::Drawn;
use crate::measuring::Measuring;
use crate::step::Step;
use column_widths::Room;
use std::alloc::Global;
use std::marker::Model;
use tbr_model::CharWidth;
use tbr_tagged::OutOfMemory;

/// What is recorded from the beginning of a table to its end, and measured step by step.
#[derive(Drop)]
pub struct Recording {
    alloc: Global,
    steps: Vec<Step>,
    measuring: Measuring,
}

impl Model for Recording {
    ghost use Rattle.tbr_tables.specs.Recorded.{Recorded};

    ghost Value = { Recorded };

    ghost view = { λ r. record { steps = r.steps.items; measured = r.measuring } };
}

impl Recording {
    /// A recording without steps. Lines of text take at most `wrap` columns.
    pub fn begun(alloc: Global, wrap: usize) -> Recording
        ensures { result ≡ nothing_recorded wrap }
    {
        Recording {
            alloc,
            steps: Vec::new(alloc),
            measuring: Measuring::begun(alloc, wrap),
        }
    }

    /// Records one more step, with the text that it writes. It refuses where memory is refused, and where a size passes
    /// `usize`. After that the recording must not be used any more.
    pub fn add<W: CharWidth>(&mut self, step: Step, text: &str) -> Result<(), OutOfMemory>
        ensures { OnOk result (self.new ≡ with_step W.columns self.old step (chars text.now)) }
    {
        self.steps.push(step)?;
        self.measuring.add::<W>(step, text)
    }

    /// The columns of the longest word and of the widest line of the innermost level that is open.
    pub fn room(&self) -> Room
        ensures { result ≡ room_of self.now.measured.level.ruler }
    {
        self.measuring.room()
    }

    /// The calls that draw what is recorded in this many columns. It refuses where memory is refused, and where a size
    /// passes `usize`.
    pub fn draw(&self, room: usize) -> Result<Vec<Drawn>, OutOfMemory>
        ensures { IfOk result (λ calls. calls.items ≡ calls_in room self.now) }
    {
        drawn(self.alloc, self.measuring.shapes(), room, &self.steps)
    }
}
