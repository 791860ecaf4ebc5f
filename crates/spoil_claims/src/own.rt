//! The own lines of the desk.
ghost use Rattle.std.specs.Prelude.{◌≡◌};
ghost use Rattle.spoil_claims.specs.ClaimLines.{IsClaimLine};
ghost use Rattle.spoil_claims.specs.Courses as course;
ghost use Rattle.spoil_claims.specs.LineLaws.{claim_alone};
ghost use Rattle.spoil_claims.specs.Texts.{said_texts};
ghost use Rattle.spoil_claims.specs.View.{said_of};
ghost use Rattle.spoil_claims.specs.declared.claim.ClaimLine.{ClaimLine as TheLine};

use crate::answer::Answer;
use crate::desk::Desk;
use crate::lines::read_claim_line;
use bench_base::events::{Event, Reply};
use line_extensions::Next;
use nv_model::Nv;
use script_words::Line;
use std::alloc::{AllocError, Global};

impl<N: Nv> line_extensions::Extension for Desk<N> {
    type Heard = Reply;

    ghost Own = { TheLine };

    ghost IsOwn = { IsClaimLine };

    ghost MayWant = { λ own. ⊥ };

    ghost Passes = { λ k line. (own : TheLine) → IsClaimLine own line → ⊥ };

    ghost Begins = { λ k own next t. course.Begins k own next t };

    ghost Goes = { λ k turn next t. course.GoesOn (said_of k) turn.reply k next t };

    ghost Sees = { λ k e turn t. t ≡ k };

    ghost texts = { λ k. said_texts (said_of k) };

    ghost left = { λ k. 0 };

    ghost alone = { λ own line is. claim_alone own line is };

    fn begin(&mut self, _alloc: Global, line: &[u8]) -> Result<Option<Next>, AllocError> {
        match &read_claim_line(line) {
            Some(own) => Ok(Some(self.begin_own(own))),
            None => Ok(None),
        }
    }

    fn go_on(&mut self, told: &Reply) -> Next {
        match self.said {
            Answer::Scanning(claim) => self.scanned(claim, told),
            _ => Next::Say,
        }
    }

    fn see(&mut self, _event: &Event, _told: &Reply) {}

    fn count(&self) -> u32 {
        self.said.count()
    }

    fn put(&self, _number: u32, line: &mut Line) {
        self.said.put(line);
    }
}
