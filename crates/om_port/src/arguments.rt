//! The words with which a program was started.

ghost use Rattle.std.specs.Prelude.{◌≡◌, ◌↔◌, IfOk, OnErr, drop};
ghost use Rattle.std.specs.Vec.Iter.{into_iter_items};

use std::alloc::Global;
use std::env;
use std::env::Args;
use std::io::ErrorKind;
use std::rt::Env;
use thiserror::Error;

/// Why a program doesn't have its words.
#[derive(Clone, Copy, Debug, PartialEq, Eq, Error)]
pub enum NoWords {
    /// Memory ran out.
    #[error("out of memory")]
    Memory,
    /// The runtime doesn't hand them over, for example because one isn't UTF-8.
    #[error("the runtime doesn't hand the words over")]
    Unreadable,
}

/// The words after the program's name, all of them and in order. That `std::env::args` gives the words with which the
/// program was started, behind its name, is trusted: std's contracts don't say so.
pub fn words<R: Env + AllocGlobal>(rt: &R) -> Result<Vec<String>, NoWords> {
    match env::args(rt) {
        Ok(arguments) => after_name(rt.alloc(), arguments),
        Err(error) => Err(cause(error.kind())),
    }
}

/// The arguments after the first one, which is the program's name. [`NoWords::Memory`] comes only if memory runs out.
fn after_name(alloc: Global, mut arguments: Args) -> Result<Vec<String>, NoWords>
    ensures words { IfOk result (λ words. words.items ≡ drop 1 (into_iter_items arguments)) }
    ensures memory { OnErr result (result ≡ Err NoWords.Memory) }
{
    let mut words = Vec::new(alloc);
    let _program = arguments.next();
    for word in arguments {
        if words.push(word).is_err() {
            return Err(NoWords::Memory);
        }
    }
    Ok(words)
}

/// Why the runtime doesn't hand the words over.
fn cause(kind: ErrorKind) -> NoWords
    ensures { (result ≡ NoWords.Memory) ↔ (kind ≡ ErrorKind.OutOfMemory) }
{
    match kind {
        ErrorKind::OutOfMemory => NoWords::Memory,
        _ => NoWords::Unreadable,
    }
}
