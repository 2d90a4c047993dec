//! The state between two pieces while lists are read, and what a piece adds to it.

ghost use Rattle.std.specs.Prelude.{ℕ, ◌≡◌, ◌≢◌, ◌<◌, ◌≤◌, ◌+◌, ◌∷◌, [], ◌++◌, List, IfOk, OnErr, length, true, false};
ghost use Rattle.om_reply.specs.Statuses.{IsReplied};
ghost use Rattle.om_classification.specs.declared.request.ListRequest.{ListRequest as Asking};
ghost use Rattle.om_classification.specs.Documents.{IsMember};
ghost use Rattle.om_classification.specs.Lists.{IsElsewhere};
ghost use Rattle.om_classification.specs.Progress.{IsBetween, IsClosing, IsEnd, IsStep, IsUnderway, started_lists};
ghost use Rattle.om_classification.specs.Texts.{gap_status, line_text};

use super::document::{Unread, read_member};
use super::line::Line;
use super::request::ListRequest;
use super::step::{Step, ended};
use super::texts::{push_line, text_of};
use om_chain::{Asked, Chain, Gap};
use om_chirotope::Chirotope;
use om_reply::Status;
use om_signs::{MAX_ELEMENTS, NoMemory};
use std::alloc::Global;
use std::marker::Model;
use std::thread::Threads;

/// How far a run has come: the chain of lists, and the number of documents.
#[derive(Drop)]
pub struct ListProgress {
    asked: Asked,
    chain: Chain,
    documents: u64,
}

impl Model for ListProgress {
    ghost use Rattle.std.specs.Prelude.{◌≡◌, ◌<◌};
    ghost use Rattle.om_signs.specs.declared.limits.TheConstants.{MAX_ELEMENTS};
    ghost use Rattle.om_classification.specs.Progress.{State};

    ghost Value = { State };

    ghost view = { λ p. record { chain = p.chain; documents = p.documents } };

    ghost invariant = { λ p. (p.asked ≡ p.chain.asked) × (p.chain.current.elements < MAX_ELEMENTS) };
}

impl ListProgress {
    /// The state before the first piece.
    ///
    /// [`NoMemory`] comes only if memory runs out.
    pub fn new(alloc: Global, request: ListRequest) -> Result<ListProgress, NoMemory>
        ensures { IfOk result (λ p. p ≡ started_lists request) }
    {
        let chain = Chain::new(alloc, request.asked, request.family)?;
        Ok(ListProgress {
            asked: request.asked,
            chain,
            documents: 0,
        })
    }

    /// Takes the next piece. Memory comes from `alloc`.
    ///
    /// [`NoMemory`] comes if memory runs out, and after 2^64 - 1 documents.
    pub fn take<R: Threads + Sync>(
        &mut self,
        rt: &R,
        alloc: Global,
        piece: &[u8],
    ) -> Result<Step, NoMemory>
        ensures replied { IfOk result (λ step. IsReplied step.status) }
        ensures step { IfOk result (λ step. (r : Asking) (all : List (List ℕ)) (text : List ℕ) (left : List (List ℕ))
            → IsBetween r all text self.old (piece.now ∷ left)
            → IsStep r all (text ++ step.text.items) step.status self.new left) }
    {
        let Some(document) = self.documents.checked_add(1) else {
            return Err(NoMemory);
        };
        match read_member(rt, alloc, piece) {
            Ok(chi) => self.place(rt, alloc, document, &chi),
            Err(Unread::Fault(fault)) => ended(alloc, Line::Fault { document, fault }),
            Err(Unread::Memory) => Err(NoMemory),
        }
    }

    /// Takes the chirotope of the next document.
    fn place<R: Threads + Sync>(
        &mut self,
        rt: &R,
        alloc: Global,
        document: u64,
        chi: &Chirotope,
    ) -> Result<Step, NoMemory>
        requires rank { chi.now.rank ≡ 3 }
        requires document { document ≡ self.old.documents + 1 }
        ensures replied { IfOk result (λ step. IsReplied step.status) }
        ensures step { IfOk result (λ step. (r : Asking) (all : List (List ℕ)) (text piece : List ℕ)
            (left : List (List ℕ)) → IsMember piece chi.now → IsBetween r all text self.old (piece ∷ left)
            → IsStep r all (text ++ step.text.items) step.status self.new left) }
    {
        let elements = chi.elements();
        let current = self.chain.elements();
        if elements == current {
            return self.join(alloc, Vec::new(alloc), document, chi);
        }
        if !begins_next(&self.chain, elements) {
            return ended(alloc, Line::Elements { document });
        }
        let step = close(&mut self.chain, rt, alloc, self.asked)?;
        match step.status {
            Status::Done => self.join(alloc, step.text, document, chi),
            _ => Ok(step),
        }
    }

    /// Adds the chirotope of the next document to the list that is being read, behind what is to be written before.
    fn join(
        &mut self,
        alloc: Global,
        before: Vec<u8>,
        document: u64,
        chi: &Chirotope,
    ) -> Result<Step, NoMemory>
        requires rank { chi.now.rank ≡ 3 }
        requires elements { chi.now.elements ≡ self.old.chain.current.elements }
        requires document { document ≡ self.old.documents + 1 }
        ensures replied { IfOk result (λ step. IsReplied step.status) }
        ensures step { IfOk result (λ step. (r : Asking) (all : List (List ℕ)) (text piece : List ℕ)
            (left : List (List ℕ)) → IsMember piece chi.now
            → IsUnderway r all (text ++ before.items) self.old (piece ∷ left)
            → IsStep r all (text ++ step.text.items) step.status self.new left) }
    {
        let mut text = before;
        match self.chain.add(alloc, chi)? {
            None => {
                self.documents = document;
                Ok(Step {
                    text,
                    status: Status::Done,
                })
            }
            Some(unfit) => {
                push_line(alloc, &mut text, &Line::Unfit { document, unfit })?;
                Ok(Step {
                    text,
                    status: Status::Refused,
                })
            }
        }
    }

    /// Takes the end of the stream. Memory comes from `alloc`.
    ///
    /// [`NoMemory`] comes only if memory runs out.
    pub fn end<R: Threads + Sync>(self, rt: &R, alloc: Global) -> Result<Step, NoMemory>
        ensures replied { IfOk result (λ step. IsReplied step.status) }
        ensures step { IfOk result (λ step. (r : Asking) (all : List (List ℕ)) (text : List ℕ)
            → IsBetween r all text self [] → IsEnd r all (text ++ step.text.items) step.status) }
    {
        let mut chain = self.chain;
        if chain.len() == 0 {
            return ended(alloc, Line::Empty);
        }
        close(&mut chain, rt, alloc, self.asked)
    }
}

/// Whether a chirotope on so many elements can be the first member of the next list.
fn begins_next(chain: &Chain, elements: u8) -> bool
    ensures next { result ≡ true → elements ≡ chain.now.current.elements + 1 }
    ensures below { result ≡ true → elements ≢ MAX_ELEMENTS }
    ensures some { result ≡ true → 1 ≤ length chain.now.current.maps }
    ensures elsewhere { result ≡ false → elements ≢ chain.now.current.elements
        → IsElsewhere chain.now.current.elements chain.now.current.maps elements }
{
    elements == chain.elements() + 1 && elements != MAX_ELEMENTS && chain.len() > 0
}

/// Ends the list that is being read, and gives its line. If it isn't shown, or memory runs out, the chain is unchanged.
fn close<R: Threads + Sync>(
    chain: &mut Chain,
    rt: &R,
    alloc: Global,
    asked: Asked,
) -> Result<Step, NoMemory>
    requires room { chain.old.current.elements < MAX_ELEMENTS }
    ensures closing { IfOk result (λ step. IsClosing asked chain.old chain.new step.status step.text.items) }
    ensures err { OnErr result (chain.new ≡ chain.old) }
{
    let (elements, members) = (chain.elements(), chain.len());
    let shown = text_of(
        alloc,
        &Line::Shown {
            asked,
            elements,
            members,
        },
    )?;
    match chain.close(rt, alloc)? {
        None => Ok(Step {
            text: shown,
            status: Status::Done,
        }),
        Some(gap) => Ok(Step {
            text: text_of(alloc, &Line::Gap { elements, gap })?,
            status: status_of(&gap),
        }),
    }
}

/// The status after a gap.
fn status_of(gap: &Gap) -> Status
    ensures { result ≡ gap_status gap.now }
{
    match gap {
        Gap::TooMany { .. } => Status::Limit,
        Gap::Missing { .. } | Gap::Unmet { .. } => Status::Refused,
    }
}
