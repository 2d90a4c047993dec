//! The state between two pieces, and what a piece adds to it.

ghost use Rattle.std.specs.Prelude.{ℕ, ◌≡◌, ◌∷◌, [], ◌++◌, List, IfOk};
ghost use Rattle.om_reply.specs.Statuses.{IsReplied};
ghost use Rattle.om_classification.specs.declared.request.Request.{Request as Asking};
ghost use Rattle.om_classification.specs.Answers.{IsOver, IsReached, IsTaken, started};

use super::least_progress::LeastProgress;
use super::list_progress::ListProgress;
use super::request::Request;
use super::step::Step;
use om_signs::NoMemory;
use std::alloc::Global;
use std::thread::Threads;

/// How far a run has come.
#[derive(Drop)]
pub enum Progress {
    /// Lists are shown.
    Lists(ListProgress),
    /// Least maps are written.
    Least(LeastProgress),
}

impl Progress {
    /// The state before the first piece.
    ///
    /// [`NoMemory`] comes only if memory runs out.
    pub fn new(alloc: Global, request: Request) -> Result<Progress, NoMemory>
        ensures { IfOk result (λ p. p ≡ started request) }
    {
        match request {
            Request::Lists(lists) => Ok(Progress::Lists(ListProgress::new(alloc, lists)?)),
            Request::Least => Ok(Progress::Least(LeastProgress { documents: 0 })),
        }
    }

    /// Takes the next piece. Memory comes from `alloc`.
    ///
    /// [`NoMemory`] comes if memory runs out, and after 2^64 - 1 documents.
    pub fn take<R: Threads + Sync>(
        &mut self,
        rt: &R,
        alloc: Global,
        piece: &[u8],
    ) -> Result<Step, NoMemory>
        ensures replied { IfOk result (λ step. IsReplied step.status) }
        ensures step { IfOk result (λ step. (r : Asking) (all : List (List ℕ)) (text : List ℕ) (left : List (List ℕ))
            → IsReached r all text self.old (piece.now ∷ left)
            → IsTaken r all (text ++ step.text.items) step.status self.new left) }
    {
        match self {
            Progress::Lists(lists) => lists.take(rt, alloc, piece),
            Progress::Least(least) => least.take(rt, alloc, piece),
        }
    }

    /// Takes the end of the stream. Memory comes from `alloc`.
    ///
    /// [`NoMemory`] comes only if memory runs out.
    pub fn end<R: Threads + Sync>(self, rt: &R, alloc: Global) -> Result<Step, NoMemory>
        ensures replied { IfOk result (λ step. IsReplied step.status) }
        ensures step { IfOk result (λ step. (r : Asking) (all : List (List ℕ)) (text : List ℕ)
            → IsReached r all text self [] → IsOver r all (text ++ step.text.items) step.status) }
    {
        match self {
            Progress::Lists(lists) => lists.end(rt, alloc),
            Progress::Least(least) => Ok(least.end(alloc)),
        }
    }
}
