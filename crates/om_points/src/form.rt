//! Linear forms that refuse vectors.

ghost use Rattle.std.specs.Prelude.{◌≡◌, ◌≢◌, ◌≤◌, ◌+ℤ◌, ◌<ℤ◌, ◌≤ℤ◌, ◌↔◌, pos, IsTrue, IfSome};
ghost use Rattle.om_vectors.specs.WholeVectors.{WholeVector, triple_product, sign_of};
ghost use Rattle.om_points.specs.Forms.{Refuses, value_at, IsMinor, AreMinors, IsValue};
ghost use Rattle.om_points.specs.Slabs.{IsInRows};
ghost use Rattle.om_points.specs.Candidates.{greatest};

use super::minors::{minor, mixed, opposite, term};
use super::short_vector::ShortVector;
use om_signs::Sign;
use om_vectors::sign_of;
use std::marker::Model;

/// A linear form with a lower bound: it refuses the vectors at which its value is less than the bound.
#[derive(Clone, Copy)]
pub(crate) struct Form {
    x: i64,
    y: i64,
    z: i64,
    least: i64,
}

impl Model for Form {
    ghost use Rattle.om_points.specs.Forms.{LinearForm, IsShortForm};

    ghost Value = { LinearForm };

    ghost view = { λ f. record { x = f.x; y = f.y; z = f.z; least = f.least } };

    ghost invariant = { λ f. IsShortForm (record { x = f.x; y = f.y; z = f.z; least = f.least }) };

    ghost inverse = { λ f. record { x = f.x; y = f.y; z = f.z; least = f.least } };
}

impl Form {
    /// A form that refuses no vector.
    pub fn open() -> Form
        ensures { (v : WholeVector) → Refuses result v → ⊥ }
    {
        Form {
            x: 0,
            y: 0,
            z: 0,
            least: 0,
        }
    }

    /// The form whose value at a vector is its triple product with two given vectors. It refuses the vector if that
    /// is less than a number.
    fn of(a: ShortVector, b: ShortVector, least: i64) -> Form
        requires { IsMinor least }
        ensures values { (v : WholeVector) → value_at result v ≡ triple_product a b v }
        ensures refuses { (v : WholeVector) → Refuses result v ↔ triple_product a b v <ℤ least }
        ensures minors { AreMinors result }
    {
        Form {
            x: minor(a.y(), b.z(), a.z(), b.y()),
            y: minor(a.z(), b.x(), a.x(), b.z()),
            z: minor(a.x(), b.y(), a.y(), b.x()),
            least,
        }
    }

    /// Whether the form refuses a vector.
    pub fn refuses(self, v: ShortVector) -> bool
        ensures { IsTrue result ↔ Refuses self v }
    {
        self.value(v) < self.least
    }

    /// The value of the form at a vector.
    fn value(self, v: ShortVector) -> i64
        ensures value { result ≡ value_at self v }
        ensures size { IsValue result }
    {
        term(self.x, v.x()) + term(self.y, v.y()) + term(self.z, v.z())
    }

    /// Whether the form refuses all vectors in the row of v and the following `rows` rows.
    pub fn refuses_rows(self, v: ShortVector, rows: u16) -> bool
        requires { (v.y +ℤ pos rows) ≤ℤ pos (greatest v) }
        ensures { IsTrue result → (t : WholeVector) → IsInRows v rows t → Refuses self t }
    {
        self.refuses(v.corner(rows, self.y > 0, self.z > 0))
    }

    /// How many rows after that of v the form may refuse with it, at most all of the slab. [`Form::refuses_rows`]
    /// decides whether it does.
    pub fn rows_to_try(self, v: ShortVector) -> u16
        ensures { (v.y +ℤ pos result) ≤ℤ pos (greatest v) }
    {
        let most = v.rows_after();
        let value = self.value(v.corner(0, false, self.z > 0));
        if self.y <= 0 || self.least <= value {
            return most;
        }
        let rows = self.least.abs_diff(value).saturating_sub(1) / self.y as u64;
        if rows < most as u64 {
            rows as u16
        } else {
            most
        }
    }

    /// The sign of the form at the third unit vector.
    pub fn slope(self) -> Sign {
        if self.z > 0 {
            Sign::Plus
        } else if self.z < 0 {
            Sign::Minus
        } else {
            Sign::Zero
        }
    }

    /// Whether the form also refuses the vectors above each one that it refuses.
    pub fn refuses_upwards(self) -> bool
        ensures { IsTrue result → self.z ≤ℤ pos 0 }
    {
        self.z <= 0
    }

    /// A sum of multiples of this form and another one in which the third coordinate cancels. It refuses only
    /// vectors that one of the two refuses. None if the first form doesn't increase with that coordinate, or the
    /// other one doesn't decrease.
    pub fn without_z(self, other: Form) -> Option<Form>
        requires first { AreMinors self }
        requires second { AreMinors other }
        ensures { IfSome result (λ f. (v : WholeVector) → Refuses f v → (Refuses self v → ⊥) → (Refuses other v → ⊥)
            → ⊥) }
    {
        let a = opposite(other.z);
        let b = self.z;
        if a <= 0 || b <= 0 {
            return None;
        }
        Some(Form {
            x: mixed(a, self.x, b, other.x),
            y: mixed(a, self.y, b, other.y),
            z: 0,
            least: mixed(a, self.least, b, other.least),
        })
    }

    /// The position of the form in the plane of the first two coordinates, by its angles to two forms, of which the
    /// first is to the right of the second. No proof depends on it.
    pub fn side(self, right: Form, left: Form) -> Side {
        if self.x == 0 && self.y == 0 {
            return if self.least > 0 {
                Side::Against
            } else {
                Side::Between
            };
        }
        if right.x == 0 && right.y == 0 {
            return Side::Only;
        }
        let from_right = angle(right, self);
        let from_left = angle(left, self);
        if angle(right, left) == 0 && from_right == 0 {
            return if same_way(right, self) {
                Side::Between
            } else {
                Side::Against
            };
        }
        if from_right >= 0 && from_left <= 0 {
            return Side::Between;
        }
        if from_right >= 0 {
            return Side::Left;
        }
        if from_left <= 0 {
            return Side::Right;
        }
        Side::Against
    }
}

/// The position of a form in the plane of the first two coordinates, relative to two other forms.
pub(crate) enum Side {
    /// There are no others yet.
    Only,
    /// To the right of both.
    Right,
    /// To the left of both.
    Left,
    /// Between them.
    Between,
    /// Opposite to both, or to what lies between them.
    Against,
}

/// Positive if the second form is to the left of the first one, by an angle of less than two right angles; negative
/// if it is to the right.
fn angle(a: Form, b: Form) -> i128 {
    (a.x as i128)
        .wrapping_mul(b.y as i128)
        .wrapping_sub((a.y as i128).wrapping_mul(b.x as i128))
}

/// Whether the angle between two forms is less than a right angle.
fn same_way(a: Form, b: Form) -> bool {
    (a.x as i128)
        .wrapping_mul(b.x as i128)
        .wrapping_add((a.y as i128).wrapping_mul(b.y as i128))
        > 0
}

/// Whether the triple product of three vectors has this sign.
pub(crate) fn has_sign(a: ShortVector, b: ShortVector, c: ShortVector, wanted: Sign) -> bool
    ensures { IsTrue result ↔ (sign_of (triple_product a b c) ≡ wanted) }
{
    let product = Form::of(a, b, 0).value(c);
    sign_of(i128::from(product)) == wanted
}

/// The form that refuses exactly the vectors whose triple product with two vectors doesn't have the required sign.
/// If zero is required, it refuses those at which the triple product is negative.
pub(crate) fn form_of(a: ShortVector, b: ShortVector, wanted: Sign) -> Form
    ensures sound { (v : WholeVector) → Refuses result v → sign_of (triple_product a b v) ≢ wanted }
    ensures minors { AreMinors result }
{
    match wanted {
        Sign::Minus => Form::of(b, a, 1),
        Sign::Zero => Form::of(a, b, 0),
        Sign::Plus => Form::of(a, b, 1),
    }
}

/// If zero is required, the form that refuses the vectors whose triple product with two vectors is positive.
pub(crate) fn opposite_of(a: ShortVector, b: ShortVector, wanted: Sign) -> Option<Form>
    ensures sound { IfSome result (λ f. (v : WholeVector) → Refuses f v → sign_of (triple_product a b v) ≢ wanted) }
    ensures minors { IfSome result AreMinors }
{
    if wanted == Sign::Zero {
        return Some(Form::of(b, a, 0));
    }
    None
}

/// A form that refuses a given vector. It refuses another vector only if its triple product with two vectors
/// doesn't have the required sign.
pub(crate) fn against(
    a: ShortVector,
    b: ShortVector,
    wanted: Sign,
    vector: ShortVector,
) -> Option<Form>
    ensures refuses { IfSome result (λ f. Refuses f vector) }
    ensures sound { IfSome result (λ f. (v : WholeVector) → Refuses f v → sign_of (triple_product a b v) ≢ wanted) }
{
    let form = form_of(a, b, wanted);
    if form.refuses(vector) {
        return Some(form);
    }
    if let Some(opposite) = opposite_of(a, b, wanted) {
        if opposite.refuses(vector) {
            return Some(opposite);
        }
    }
    None
}
