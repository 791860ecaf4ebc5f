//! The own lines of the checker.
ghost use Rattle.std.specs.Prelude.{◌≡◌};
ghost use Rattle.mail_manifest.specs.Courses as course;
ghost use Rattle.mail_manifest.specs.LineLaws.{manifest_alone};
ghost use Rattle.mail_manifest.specs.ManifestLines.{IsManifestLine};
ghost use Rattle.mail_manifest.specs.Texts.{said_texts};
ghost use Rattle.mail_manifest.specs.View.{listing_of, said_of};
ghost use Rattle.mail_manifest.specs.Waits.{pieces_left};
ghost use Rattle.mail_manifest.specs.Wanting as wanting;
ghost use Rattle.mail_manifest.specs.declared.opening.ManifestLine.{ManifestLine as TheLine};

use crate::answer::Answer;
use crate::checker::Checker;
use crate::lines::read_manifest_line;
use bench_base::events::{Event, Reply};
use line_extensions::{Extension, Next};
use script_words::Line;
use std::alloc::{AllocError, Global};

impl Extension for Checker {
    type Heard = Reply;

    ghost Own = { TheLine };

    ghost IsOwn = { IsManifestLine };

    ghost MayWant = { wanting.MayWant };

    ghost Passes = { λ k line. (own : TheLine) → IsManifestLine own line → ⊥ };

    ghost Begins = { λ k own next t. course.Begins k own next t };

    ghost Goes = { λ k turn next t. course.GoesOn (said_of k) turn.reply k next t };

    ghost Sees = { λ k e turn t. t ≡ k };

    ghost texts = { λ k. said_texts (said_of k) };

    ghost left = { λ k. pieces_left (listing_of k) (said_of k) };

    ghost alone = { λ own line is. manifest_alone own line is };

    fn begin(&mut self, alloc: Global, line: &[u8]) -> Result<Option<Next>, AllocError> {
        match &read_manifest_line(line) {
            Some(own) => match self.begin_own(alloc, own) {
                Ok(next) => Ok(Some(next)),
                Err(fail) => Err(fail),
            },
            None => Ok(None),
        }
    }

    fn go_on(&mut self, told: &Reply) -> Next {
        match self.said {
            Answer::Scanning(number) => self.scanned(number, told),
            _ => Next::Say,
        }
    }

    fn see(&mut self, _event: &Event, _told: &Reply) {}

    fn count(&self) -> u32 {
        self.said.count()
    }

    fn put(&self, _number: u32, line: &mut Line) {
        self.said.put(line);
    }
}
