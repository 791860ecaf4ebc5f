//! The own lines of the desk.
ghost use Rattle.std.specs.Prelude.{◌≡◌};
ghost use Rattle.centre_statement.specs.Courses as course;
ghost use Rattle.centre_statement.specs.Desk.{view_of, seen};
ghost use Rattle.centre_statement.specs.OwnLaws.{own_alone};
ghost use Rattle.centre_statement.specs.OwnLines.{IsOwnLine};
ghost use Rattle.centre_statement.specs.Texts.{said_texts};
ghost use Rattle.centre_statement.specs.declared.lines.OwnLine.{OwnLine as TheLine};
ghost use Rattle.centre_statement.specs.declared.lines.OwnLine.TheVariants as own;

use crate::desk::StatementDesk;
use crate::lines::read_own_line;
use bench_base::events::Event;
use line_extensions::{Extension, Next};
use node_turns::Turn;
use script_words::Line;
use std::alloc::{AllocError, Global};

impl Extension for StatementDesk {
    type Heard = Turn;

    ghost Own = { TheLine };

    ghost IsOwn = { IsOwnLine };

    ghost MayWant = { course.MayWant };

    ghost Passes = { λ k line. (own : TheLine) → IsOwnLine own line → ⊥ };

    ghost Begins = { λ k own next t. course.Begins (view_of k) own next (view_of t) };

    ghost Goes = { λ k turn next t. course.GoesOn (view_of k) turn next (view_of t) };

    ghost Sees = { λ k e turn t. view_of t ≡ seen (view_of k) turn.entries };

    ghost texts = { λ k. said_texts (view_of k).said (view_of k).listed };

    ghost left = { λ k. 0 };

    ghost alone = { λ own line is. own_alone own line is };

    fn begin(&mut self, alloc: Global, line: &[u8]) -> Result<Option<Next>, AllocError> {
        match &read_own_line(line) {
            Some(own) => match self.begin_own(alloc, own) {
                Ok(next) => Ok(Some(next)),
                Err(error) => Err(error),
            },
            None => Ok(None),
        }
    }

    fn go_on(&mut self, told: &Turn) -> Next {
        self.see_all(&told.entries);
        self.answer(&told.reply);
        Next::Say
    }

    fn see(&mut self, _event: &Event, told: &Turn) {
        self.see_all(&told.entries);
    }

    fn count(&self) -> u32 {
        self.texts()
    }

    fn put(&self, number: u32, line: &mut Line) {
        self.put_text(number, line);
    }
}
