//! The closure of a set of sign vectors under composition.

ghost use Rattle.std.specs.Prelude.{◌≤◌, IfOk, IfErr};
ghost use Rattle.std.specs.List.{Contains};
ghost use Rattle.om_members.specs.Listings.{HaveLength};
ghost use Rattle.om_denotation.specs.Compositions.{IsCompositionOf};
ghost use Rattle.om_denotation.specs.Listings.{AreAllOf};
ghost use Rattle.om_convert.specs.Limits.{IsCause};

use super::convert_error::ConvertError;
use super::member_set::MemberSet;
use om_signs::{MAX_PLACES, SignVec};
use std::alloc::Global;

/// All compositions of vectors of a list. Each vector has `elements` signs, from 1 to [`MAX_PLACES`]. The
/// composition of no vectors is zero.
///
/// Each member of the set in turn is composed with each vector of the list, and what is new is added to the set.
/// The call ends when the last member gives nothing new, or at the first composition beyond the limit.
pub fn all_compositions(
    alloc: Global,
    elements: u8,
    vectors: &[SignVec],
) -> Result<MemberSet, ConvertError>
    requires low { 1 ≤ elements }
    requires high { elements ≤ MAX_PLACES }
    requires lengths { HaveLength elements vectors.now }
    ensures members { IfOk result (AreAllOf (IsCompositionOf elements (Contains vectors.now))) }
    ensures many { IfErr result (IsCause (IsCompositionOf elements (Contains vectors.now))) }
{
    let mut members = MemberSet::new(alloc);
    members.insert(SignVec::zero(elements))?;
    let mut done = 0usize;
    while done < members.len() {
        members.insert_composed(members.at(done), vectors)?;
        done += 1;
    }
    Ok(members)
}
