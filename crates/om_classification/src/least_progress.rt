//! The state between two pieces while least maps are written, and what a piece adds to it.

ghost use Rattle.std.specs.Prelude.{ℕ, ◌≡◌, ◌∷◌, [], ◌++◌, List, IfOk};
ghost use Rattle.om_reply.specs.Statuses.{IsReplied};
ghost use Rattle.om_classification.specs.LeastMaps.{IsLeastBetween, IsLeastStep, IsTextOfLeast};

use super::document::{Unread, read_member};
use super::line::Line;
use super::step::{Step, ended};
use om_document::print_map;
use om_least::least_image;
use om_reply::Status;
use om_signs::NoMemory;
use std::alloc::Global;
use std::thread::Threads;

/// How far a run has come: the number of documents.
#[derive(Drop)]
pub struct LeastProgress {
    pub documents: u64,
}

impl LeastProgress {
    /// Takes the next piece: the text is the document of the least map of its class. Memory comes from `alloc`.
    ///
    /// [`NoMemory`] comes if memory runs out, and after 2^64 - 1 documents.
    pub fn take<R: Threads + Sync>(
        &mut self,
        rt: &R,
        alloc: Global,
        piece: &[u8],
    ) -> Result<Step, NoMemory>
        ensures replied { IfOk result (λ step. IsReplied step.status) }
        ensures step { IfOk result (λ step. (all : List (List ℕ)) (text : List ℕ) (left : List (List ℕ))
            → IsLeastBetween all text self.old.documents (piece.now ∷ left)
            → IsLeastStep all (text ++ step.text.items) step.status self.new.documents left) }
    {
        let Some(document) = self.documents.checked_add(1) else {
            return Err(NoMemory);
        };
        match read_member(rt, alloc, piece) {
            Ok(chi) => {
                let least = least_image(alloc, &chi)?;
                let text = print_map(alloc, least.rank(), least.elements(), least.signs())?;
                self.documents = document;
                Ok(Step {
                    text,
                    status: Status::Done,
                })
            }
            Err(Unread::Fault(fault)) => ended(alloc, Line::Fault { document, fault }),
            Err(Unread::Memory) => Err(NoMemory),
        }
    }

    /// Takes the end of the stream, which adds no text.
    pub fn end(self, alloc: Global) -> Step
        ensures status { result.status ≡ Status.Done }
        ensures text { (all : List (List ℕ)) (text : List ℕ) → IsLeastBetween all text self.documents []
            → IsTextOfLeast all (text ++ result.text.items) }
    {
        Step {
            text: Vec::new(alloc),
            status: Status::Done,
        }
    }
}
