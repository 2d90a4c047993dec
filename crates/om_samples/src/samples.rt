//! Chirotopes, circuits, cocircuits and covectors written as texts.

ghost use Rattle.std.specs.Prelude.{◌≡◌, ◌≤◌, length, IfOk};
ghost use Rattle.om_subsets.specs.Subsets.{choose};

use super::letters::{signs_of, vectors_of};
use super::sample_error::SampleError;
use om_chirotope::Chirotope;
use om_circuits::{Circuits, Cocircuits, SignedSet};
use om_covectors::Covectors;
use om_signs::{MAX_ELEMENTS, RawMap};
use om_subsets::Subset;
use std::alloc::Global;
use std::thread::Threads;

/// The map of a rank and a number of elements whose signs, in lexicographic order of the sets, are those of a text.
/// Whether it satisfies the axioms isn't tested. There are at most [`MAX_ELEMENTS`] elements. Memory comes from
/// `alloc`.
///
/// [`SampleError::Refused`] comes if the text doesn't have one byte for each set, and [`SampleError::Memory`] if
/// memory runs out.
pub fn map_of(alloc: Global, rank: u8, elements: u8, text: &str) -> Result<RawMap, SampleError>
    requires { elements ≤ MAX_ELEMENTS }
    ensures rank { IfOk result (λ raw. raw.rank ≡ rank) }
    ensures elements { IfOk result (λ raw. raw.elements ≡ elements) }
    ensures whole { IfOk result (λ raw. length raw.signs ≡ choose elements rank) }
{
    let signs = signs_of(alloc, text)?;
    if signs.len() != Subset::choose(elements, rank) as usize {
        return Err(SampleError::Refused);
    }
    Ok(RawMap {
        rank,
        elements,
        signs,
    })
}

/// The chirotope of a rank and a number of elements whose signs, in lexicographic order of the sets, are those of a
/// text. Memory comes from `alloc`.
///
/// [`SampleError::Refused`] comes if the number of elements isn't from 1 to [`MAX_ELEMENTS`], or the rank is
/// greater than it. It also comes if the text doesn't have one byte for each set, or the signs violate an axiom.
/// [`SampleError::Memory`] comes if memory runs out.
pub fn chirotope_of<R: Threads + Sync>(
    rt: &R,
    alloc: Global,
    rank: u8,
    elements: u8,
    text: &str,
) -> Result<Chirotope, SampleError>
    ensures rank { IfOk result (λ c. c.rank ≡ rank) }
    ensures elements { IfOk result (λ c. c.elements ≡ elements) }
{
    if elements < 1 || elements > MAX_ELEMENTS || rank > elements {
        return Err(SampleError::Refused);
    }
    match om_chirotope::check(rt, map_of(alloc, rank, elements, text)?) {
        Ok(chi) => Ok(chi),
        Err(_) => Err(SampleError::Refused),
    }
}

/// The set of the sign vectors of some texts, which satisfies the axioms of circuits.
fn set_of<R: Threads + Sync>(
    rt: &R,
    alloc: Global,
    elements: u8,
    texts: &[&str],
) -> Result<SignedSet, SampleError>
    ensures { IfOk result (λ s. s.elements ≡ elements) }
{
    let list = vectors_of(alloc, elements, texts)?;
    match om_circuits::check(rt, elements, list) {
        Ok(set) => Ok(set),
        Err(_) => Err(SampleError::Refused),
    }
}

/// The oriented matroid whose circuits are the sign vectors of some texts. Memory comes from `alloc`.
///
/// [`SampleError::Refused`] comes if the number of elements isn't from 1 to [`MAX_ELEMENTS`], there are too many
/// vectors, or they break an axiom. [`SampleError::Memory`] comes if memory runs out.
pub fn circuits_of<R: Threads + Sync>(
    rt: &R,
    alloc: Global,
    elements: u8,
    texts: &[&str],
) -> Result<Circuits, SampleError>
    ensures { IfOk result (λ c. c.0.elements ≡ elements) }
{
    Ok(Circuits(set_of(rt, alloc, elements, texts)?))
}

/// The oriented matroid whose cocircuits are the sign vectors of some texts. Memory comes from `alloc`.
///
/// The errors are those of [`circuits_of`].
pub fn cocircuits_of<R: Threads + Sync>(
    rt: &R,
    alloc: Global,
    elements: u8,
    texts: &[&str],
) -> Result<Cocircuits, SampleError>
    ensures { IfOk result (λ c. c.0.elements ≡ elements) }
{
    Ok(Cocircuits(set_of(rt, alloc, elements, texts)?))
}

/// The oriented matroid whose covectors are the sign vectors of some texts. Memory comes from `alloc`.
///
/// [`SampleError::Refused`] comes if the number of elements isn't from 1 to [`MAX_ELEMENTS`], there are too many
/// vectors, or they break an axiom. [`SampleError::Memory`] comes if memory runs out.
pub fn covectors_of<R: Threads + Sync>(
    rt: &R,
    alloc: Global,
    elements: u8,
    texts: &[&str],
) -> Result<Covectors, SampleError>
    ensures { IfOk result (λ c. c.elements ≡ elements) }
{
    let list = vectors_of(alloc, elements, texts)?;
    match om_covectors::check(rt, elements, list) {
        Ok(covectors) => Ok(covectors),
        Err(_) => Err(SampleError::Refused),
    }
}
