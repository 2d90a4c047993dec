//! The rank of the oriented matroid that a list denotes, whatever the number of values of its chirotope.

ghost use Rattle.std.specs.Prelude.{◌≤◌};
ghost use Rattle.std.specs.List.{Contains};
ghost use Rattle.om_denotation.specs.Covectors.{IsCovectorOfCircuits, IsCovectorOfCocircuits};
ghost use Rattle.om_convert.specs.Ranks.{IsRankFor};

use super::hitting::minimal_meeting;
use om_circuits::{Circuits, Cocircuits};
use om_covectors::Covectors;
use om_signs::MAX_ELEMENTS;

/// The rank of the chirotope that denotes the same as some circuits, whatever its number of values. It is the
/// number of elements minus the size of a minimal set that meets every circuit. The call allocates no memory.
///
/// Source: Björner, Las Vergnas, Sturmfels, White and Ziegler, *Oriented Matroids*, chapter 3.
pub fn rank_circuits(c: &Circuits) -> u8
    ensures high { result ≤ c.now.0.elements }
    ensures few { c.now.0.elements ≤ MAX_ELEMENTS }
    ensures rank { IsRankFor c.now.0.elements (IsCovectorOfCircuits c.now.0) result }
{
    let elements = c.0.elements();
    elements - minimal_meeting(elements, c.0.members()).size()
}

/// The rank of the chirotope that denotes the same as some cocircuits, whatever its number of values. It is the
/// size of a minimal set that meets every cocircuit. The call allocates no memory.
///
/// Source: Björner, Las Vergnas, Sturmfels, White and Ziegler, *Oriented Matroids*, chapter 3.
pub fn rank_cocircuits(c: &Cocircuits) -> u8
    ensures high { result ≤ c.now.0.elements }
    ensures few { c.now.0.elements ≤ MAX_ELEMENTS }
    ensures rank { IsRankFor c.now.0.elements (IsCovectorOfCocircuits c.now.0) result }
{
    minimal_meeting(c.0.elements(), c.0.members()).size()
}

/// The rank of the chirotope that denotes the same as some covectors, whatever its number of values. It is the size
/// of a minimal set that meets every nonzero covector. The call allocates no memory.
///
/// Source: Björner, Las Vergnas, Sturmfels, White and Ziegler, *Oriented Matroids*, chapters 3 and 4.
pub fn rank_covectors(c: &Covectors) -> u8
    ensures high { result ≤ c.now.elements }
    ensures few { c.now.elements ≤ MAX_ELEMENTS }
    ensures rank { IsRankFor c.now.elements (Contains c.now.members) result }
{
    minimal_meeting(c.elements(), c.members()).size()
}
