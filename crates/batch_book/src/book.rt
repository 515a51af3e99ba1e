ghost use Rattle.std.specs.Prelude.{◌≡◌, ℕ, ◌<◌, List, IfOk, None, Option};
ghost use Rattle.batch_book.specs.Ends.{AreOwn, AreJobEnds, HasEnd, IsBook, IsGathered, IsMissing, IsPut, end_at};

use crate::jobs::Jobs;
use crate::places::{fill_all, first_empty, push_end};
use std::alloc::{AllocError, Global};
use std::marker::Model;

/// Ends of jobs, with a place for each job. Each end is an end of the job of its place. Clauses see the jobs and the
/// places.
#[derive(Drop)]
pub struct Book<'a, J: Jobs> {
    jobs: &'a J,
    ends: Vec<Option<J::End>>,
}

impl<'a, J: Jobs> Model for Book<'a, J> {
    ghost Value = { J × List (Option J.End) };

    ghost view = { λ b. (b.jobs.now, b.ends.items) };

    ghost invariant = { λ b. IsBook (J.is_end b.jobs.now) (J.number b.jobs.now) b.ends.items };
}

impl<'a, J: Jobs> Book<'a, J>
where
    J::End: Drop,
{
    /// A book without ends. All its memory is taken here. The error is out of memory.
    pub fn new(alloc: Global, jobs: &'a J) -> Result<Book<'a, J>, AllocError>
        ensures jobs { IfOk result (λ b. b.0 ≡ jobs.entry.now) }
        ensures empty { IfOk result (λ b. (job : ℕ) → end_at b.1 job ≡ None) }
    {
        let count = jobs.count() as usize;
        let mut ends = Vec::with_capacity(alloc, count)?;
        for _place in 0..count {
            ends.push(None)?;
        }
        Ok(Book { jobs, ends })
    }

    /// The jobs of the book.
    pub fn jobs(&self) -> &'a J
        ensures is { result.now ≡ self.now.0 }
        ensures own { AreOwn (J.is_end self.now.0) self.now.1 }
    {
        // The ends are read for the clause `own`.
        let _ends = &self.ends;
        self.jobs
    }

    /// Puts the end of a job into its place. A job that has an end keeps it.
    pub fn put(&mut self, job: u32, end: J::End)
        requires job { job < J.number self.old.0 }
        requires end { J.is_end self.old.0 job end }
        ensures jobs { self.new.0 ≡ self.old.0 }
        ensures put { IsPut self.old.1 job end self.new.1 }
    {
        let place = job as usize;
        if self.ends[place].is_none() {
            self.ends[place] = Some(end);
        }
    }

    /// Moves the ends of another book to the jobs that have none here.
    pub fn gather(&mut self, other: Book<'a, J>)
        requires { AreOwn (J.is_end self.old.0) other.1 }
        ensures jobs { self.new.0 ≡ self.old.0 }
        ensures gathered { IsGathered self.old.1 other.entry.1 self.new.1 }
    {
        let Book {
            jobs: _,
            ends: mut others,
        } = other;
        fill_all(self.ends.as_mut_slice(), others.as_mut_slice());
    }

    /// The least job without an end, or none where each job has one.
    pub fn first_missing(&self) -> Option<u32>
        ensures { IsMissing self.now.1 (J.number self.now.0) result }
    {
        match first_empty(self.ends.as_slice()) {
            Some(place) => Some(place as u32),
            None => None,
        }
    }

    /// The ends of all jobs, in the order of the jobs. The error is out of memory.
    pub(crate) fn into_ends(self, alloc: Global) -> Result<Vec<J::End>, AllocError>
        requires { (job : ℕ) → job < J.number self.0 → HasEnd self.1 job }
        ensures { IfOk result (λ ends. AreJobEnds (J.is_end self.entry.0) (J.number self.entry.0) ends.items) }
    {
        let Book {
            jobs: _,
            ends: places,
        } = self;
        let mut ends = Vec::with_capacity(alloc, places.len())?;
        for place in places {
            push_end(&mut ends, place)?;
        }
        Ok(ends)
    }
}
