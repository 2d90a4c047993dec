//! The forms that a search tries first.

ghost use Rattle.std.specs.Prelude.{◌≡◌, ◌≤◌, ◌<◌, ◌-◌, ◌⊎◌, length, IfSome};
ghost use Rattle.om_points.specs.Forms.{Refuses};
ghost use Rattle.om_points.specs.Passes.{RefusesRightly, IsUseful};
ghost use Rattle.om_points.specs.Refusers.{AreSound, AreUseful};

use super::agreement::sign_wanted;
use super::form::{Form, Side, against, form_of, opposite_of};
use super::order::SIGNS;
use super::placing::Placing;
use super::short_vector::ShortVector;
use super::slopes::Slopes;
use om_signs::Sign;

/// Forms that refuse only vectors without the required signs in place of the last one. Three have no third
/// coordinate, so they refuse whole rows, and one belongs to a pair of vectors.
///
/// In the plane of the first two coordinates, the possible vectors lie between the right form and the left one. The
/// form `against` refuses what these two don't, if nothing is possible.
#[derive(Clone, Copy)]
pub(crate) struct Refusers {
    right: Form,
    left: Form,
    against: Form,
    held: Form,
}

impl Refusers {
    /// The refusers that the pairs of vectors before the last one give. The form of no pair is held yet.
    pub fn of(placing: &Placing, wanted: &[Sign]) -> Refusers
        requires some { 1 ≤ length placing.now }
        requires wanted { length wanted.now ≡ SIGNS }
        ensures { AreSound placing.now wanted.now result }
    {
        let slopes = slopes_of(placing, wanted);
        let mut refusers = Refusers {
            right: Form::open(),
            left: Form::open(),
            against: Form::open(),
            held: Form::open(),
        };
        for level in slopes.level.as_slice() {
            refusers.take(*level);
        }
        for rising in slopes.rising.as_slice() {
            for falling in slopes.falling.as_slice() {
                if let Some(form) = rising.without_z(*falling) {
                    refusers.take(form);
                }
            }
        }
        refusers
    }

    /// Takes a form without the third coordinate, if it lies outside the right and the left one.
    fn take(&mut self, form: Form)
        ensures right { (self.new.right ≡ self.old.right) ⊎ (self.new.right ≡ form) }
        ensures left { (self.new.left ≡ self.old.left) ⊎ (self.new.left ≡ form) }
        ensures against { (self.new.against ≡ self.old.against) ⊎ (self.new.against ≡ form) }
        ensures held { self.new.held ≡ self.old.held }
    {
        match form.side(self.right, self.left) {
            Side::Only => {
                self.right = form;
                self.left = form;
            }
            Side::Right => self.right = form,
            Side::Left => self.left = form,
            Side::Between => {}
            Side::Against => self.against = form,
        }
    }

    /// A form that refuses a vector, or None if the form of no pair of vectors does. The form of a pair is held.
    pub fn refusing(
        &mut self,
        placing: &Placing,
        wanted: &[Sign],
        vector: ShortVector,
    ) -> Option<Form>
        requires some { 1 ≤ length placing.now }
        requires wanted { length wanted.now ≡ SIGNS }
        requires sound { AreSound placing.now wanted.now self.old }
        ensures still { AreSound placing.now wanted.now self.new }
        ensures refuses { IfSome result (λ f. Refuses f vector) }
        ensures sound { IfSome result (RefusesRightly placing.now wanted.now) }
    {
        if self.right.refuses(vector) {
            return Some(self.right);
        }
        if self.left.refuses(vector) {
            return Some(self.left);
        }
        if self.against.refuses(vector) {
            return Some(self.against);
        }
        if self.held.refuses(vector) {
            return Some(self.held);
        }
        let form = refusing(placing, wanted, vector)?;
        self.held = form;
        Some(form)
    }
}

/// A form of two vectors before the last one that refuses a vector, or None.
fn refusing(placing: &Placing, wanted: &[Sign], vector: ShortVector) -> Option<Form>
    requires some { 1 ≤ length placing.now }
    requires wanted { length wanted.now ≡ SIGNS }
    ensures refuses { IfSome result (λ f. Refuses f vector) }
    ensures sound { IfSome result (RefusesRightly placing.now wanted.now) }
{
    let last = placing.len() - 1;
    for q in 0..last {
        let second = placing.at(q);
        for p in 0..q {
            let sign = sign_wanted(wanted, p, q, last);
            let first = placing.at(p);
            let form = against(first, second, sign, vector);
            if form.is_some() {
                return form;
            }
        }
    }
    None
}

/// The forms of the pairs of vectors before the last one, as many as there is room for.
fn slopes_of(placing: &Placing, wanted: &[Sign]) -> Slopes
    requires some { 1 ≤ length placing.now }
    requires wanted { length wanted.now ≡ SIGNS }
    ensures { AreUseful placing.now wanted.now result }
{
    let last = placing.len() - 1;
    let mut slopes = Slopes::new();
    for q in 0..last {
        for p in 0..q {
            slopes.add(form_at(placing, wanted, p, q));
            if let Some(opposite) = opposite_at(placing, wanted, p, q) {
                slopes.add(opposite);
            }
        }
    }
    slopes
}

/// The form of two vectors before the last one.
fn form_at(placing: &Placing, wanted: &[Sign], p: u8, q: u8) -> Form
    requires wanted { length wanted.now ≡ SIGNS }
    requires order { p < q }
    requires last { q < length placing.now - 1 }
    ensures { IsUseful placing.now wanted.now result }
{
    let sign = sign_wanted(wanted, p, q, placing.len() - 1);
    form_of(placing.at(p), placing.at(q), sign)
}

/// The opposite form of two vectors before the last one, if zero is required.
fn opposite_at(placing: &Placing, wanted: &[Sign], p: u8, q: u8) -> Option<Form>
    requires wanted { length wanted.now ≡ SIGNS }
    requires order { p < q }
    requires last { q < length placing.now - 1 }
    ensures { IfSome result (IsUseful placing.now wanted.now) }
{
    let sign = sign_wanted(wanted, p, q, placing.len() - 1);
    opposite_of(placing.at(p), placing.at(q), sign)
}
