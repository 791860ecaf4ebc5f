//! The departments as an extension.
ghost use Rattle.std.specs.Prelude.{◌≡◌, ◌↔◌, IsTrue};
ghost use Rattle.node_turns.specs.Turns.{sent_in};
ghost use Rattle.host_departments.specs.Courses as course;
ghost use Rattle.host_departments.specs.DepartmentLines.{IsLine, IsDepartmentLine};
ghost use Rattle.host_departments.specs.LineLaws.{department_alone};
ghost use Rattle.host_departments.specs.Passes.{Passes, IsPrintOf};
ghost use Rattle.host_departments.specs.Texts.{said_texts};
ghost use Rattle.host_departments.specs.View.{said_of, rows_of};
ghost use Rattle.host_departments.specs.declared.row.DepartmentLine.{DepartmentLine as TheLine};

use crate::answer::Answer;
use crate::desk::Departments;
use crate::heard::Heard;
use crate::lines::read_department_line;
use crate::row::DepartmentLine;
use bench_base::events::Event;
use line_extensions::{Extension, Next};
use nv_model::Nv;
use script_words::Line;
use std::alloc::{AllocError, Global};

impl<N: Nv> Departments<N> {
    // Whether the line is a `print` of a job that a department has.
    fn is_left(&self, own: &DepartmentLine) -> bool
        ensures { IsTrue result ↔ IsPrintOf (rows_of self.now) own.now }
    {
        match own {
            DepartmentLine::Print(job) => self.department(*job).is_some(),
            DepartmentLine::Quota(_, _) | DepartmentLine::Assign(_, _) | DepartmentLine::Spent(_) =>
                false,
        }
    }
}

impl<N: Nv> Extension for Departments<N> {
    type Heard = Heard;

    ghost Own = { TheLine };

    ghost IsOwn = { IsDepartmentLine };

    ghost MayWant = { λ own. ⊥ };

    ghost Passes = { λ k line. Passes (rows_of k) line };

    ghost Begins = { λ k own next t. IsLine own × course.Begins k own next t };

    ghost Goes = { λ k turn next t. course.GoesOn (said_of k) turn.reply (sent_in turn.entries) k next t };

    ghost Sees = { λ k e turn t. t ≡ k };

    ghost texts = { λ k. said_texts (said_of k) };

    ghost left = { λ k. 0 };

    ghost alone = { λ own line is. department_alone own line is };

    fn begin(&mut self, _alloc: Global, line: &[u8]) -> Result<Option<Next>, AllocError> {
        match &read_department_line(line) {
            Some(own) => {
                if self.is_left(own) {
                    return Ok(None);
                }
                Ok(Some(self.begin_own(own)))
            }
            None => Ok(None),
        }
    }

    fn go_on(&mut self, told: &Heard) -> Next {
        match self.said {
            Answer::Sending(department, job) => self.hears(department, job, told),
            _ => Next::Say,
        }
    }

    fn see(&mut self, _event: &Event, _told: &Heard) {}

    fn count(&self) -> u32 {
        self.said.count()
    }

    fn put(&self, _number: u32, line: &mut Line) {
        self.said.put(line);
    }
}
