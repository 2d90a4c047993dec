//! The text of an answer.

ghost use Rattle.std.specs.Prelude.{◌≡◌, IfOk};
ghost use Rattle.om_reply.specs.Answers.{IsReply, text_of};

use super::answer::Answer;
use super::claim_text::print_claim;
use super::extension_text::print_extensions;
use super::hull_text::print_hull;
use super::made_text::print_made;
use super::mutation_text::print_mutations;
use om_document::{print, print_two};
use om_printing::print_line;
use om_signs::NoMemory;
use std::alloc::Global;

/// The text of an answer to a command.
pub fn print_answer(alloc: Global, answer: &Answer) -> Result<Vec<u8>, NoMemory>
    requires { IsReply answer.now }
    ensures { IfOk result (λ text. text.items ≡ text_of answer.now) }
{
    match answer {
        Answer::Line(line) => print_line(alloc, line),
        Answer::Document(document) => print(alloc, document),
        Answer::Upgraded(document) => print_two(alloc, document),
        Answer::Mutations(sets) => print_mutations(alloc, sets.as_slice()),
        Answer::Extensions { elements, listing } => print_extensions(alloc, *elements, listing),
        Answer::Hull(items) => print_hull(alloc, items.as_slice()),
        Answer::Claim(claim) => print_claim(alloc, claim),
        Answer::Made { vectors, tally } => print_made(alloc, vectors, tally),
    }
}
