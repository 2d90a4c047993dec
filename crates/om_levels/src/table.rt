//! A table in which the member is found to which a chirotope is isomorphic.

ghost use Rattle.std.specs.Prelude.{◌≡◌, ◌<◌, length, IfOk, IfSome};
ghost use Rattle.om_symmetry.specs.Permutations.{AreIsomorphic};
ghost use Rattle.om_levels.specs.Levels.{IsChirotopeOfRank3, IsIsomorphicTo, IsRowOf, AreImages};

use super::level::Level;
use super::packing::push_packed;
use om_chirotope::Chirotope;
use om_label::label;
use om_signs::NoMemory;
use std::alloc::Global;
use std::marker::Model;

/// The members of a [`Level`], each under the signed permutation that its label is. The places of the members are
/// sorted by the bytes of these images, so that a map with the same image is found by bisection. Contracts see the
/// list of the members.
///
/// Beside the bytes of its image each member takes a place, 8 bytes.
#[derive(Drop)]
pub struct Table<'a> {
    members: &'a Level,
    images: Level,
    places: Vec<usize>,
}

impl<'a> Model for Table<'a> {
    ghost use Rattle.om_levels.specs.Levels.{Members, AreImages};

    ghost Value = { Members };

    ghost view = { λ t. t.members.now };

    ghost invariant = { λ t. AreImages t.members.now t.images };
}

impl<'a> Table<'a> {
    /// The table of the members of a list. Its memory comes from `alloc`.
    ///
    /// [`NoMemory`] comes only if memory runs out.
    pub fn of(alloc: Global, members: &'a Level) -> Result<Table<'a>, NoMemory>
        ensures { IfOk result (λ t. t ≡ members.now) }
    {
        let images = images_of(alloc, members)?;
        let mut places: Vec<usize> = (0..images.len()).collect(alloc)?;
        places.sort_unstable_by(|a, b| images.row(*a).cmp(images.row(*b)));
        Ok(Table {
            members,
            images,
            places,
        })
    }

    /// The place of a member to which the chirotope is isomorphic, counted from 0, or None if its label doesn't lead
    /// to the image of a member. The chirotope is of rank 3 on as many elements as the members. Memory for its image
    /// comes from `alloc`.
    ///
    /// [`NoMemory`] comes only if memory runs out.
    pub fn find(&self, alloc: Global, chi: &Chirotope) -> Result<Option<usize>, NoMemory>
        requires rank { chi.now.rank ≡ 3 }
        requires elements { chi.now.elements ≡ self.now.elements }
        ensures { IfOk result (λ found. IfSome found (IsIsomorphicTo self.now.maps chi.now)) }
    {
        let image = labelled(alloc, chi)?;
        let mut key = Vec::new(alloc);
        push_packed(&mut key, image.signs())?;
        Ok(place_of(&self.images, &self.places, key.as_slice()))
    }
}

/// The image of a chirotope under its label.
fn labelled(alloc: Global, chi: &Chirotope) -> Result<Chirotope, NoMemory>
    requires { chi.now.rank ≡ 3 }
    ensures isomorphic { IfOk result (λ d. AreIsomorphic chi.now d) }
    ensures kind { IfOk result (IsChirotopeOfRank3 chi.now.elements) }
{
    let image = label(chi).act(alloc, chi)?;
    prove!(image.rank() == 3);
    Ok(image)
}

/// The images of the members under their labels, in their order.
fn images_of(alloc: Global, members: &Level) -> Result<Level, NoMemory>
    ensures { IfOk result (AreImages members.now) }
{
    let mut images = Level::new(alloc, members.elements());
    for place in 0..members.len() {
        let member = members.get(alloc, place)?;
        images.push(&labelled(alloc, &member)?)?;
    }
    Ok(images)
}

/// The place of an image with these bytes.
fn place_of(images: &Level, places: &[usize], key: &[u8]) -> Option<usize>
    ensures { IfSome result (λ place. (place < length images.now.maps) × IsRowOf images.now place key.now) }
{
    let at = places
        .binary_search_by(|place| images.row(*place).cmp(key))
        .ok()?;
    let place = places[at];
    (place < images.len() && images.row(place) == key).then_some(place)
}
