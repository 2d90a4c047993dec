//! Tables of linear forms that refuse vectors.

ghost use Rattle.std.specs.Prelude.{◌≡◌, ◌<◌, ◌⊎◌, ◌∷◌, [], ◌++◌, length, slice_get, Some};

use super::form::Form;
use om_signs::Sign;
use std::marker::Model;

/// The greatest number of forms of a table.
const FORMS: usize = 32;

/// A list of forms, by value. Contracts see the list.
#[derive(Drop)]
pub(crate) struct Forms {
    forms: [Form; FORMS],
    len: u8,
}

impl Model for Forms {
    ghost use Rattle.std.specs.Prelude.{List, take};
    ghost use Rattle.om_points.specs.Forms.{LinearForm, IsFormTable};

    ghost Value = { List LinearForm };

    ghost view = { λ f. take f.len f.forms };

    ghost invariant = { λ f. IsFormTable f.forms f.len };
}

impl Forms {
    /// The empty list.
    pub fn new() -> Forms
        ensures { result ≡ [] }
    {
        Forms {
            forms: [Form::open(); FORMS],
            len: 0,
        }
    }

    /// The forms as a slice.
    pub fn as_slice(&self) -> &[Form]
        ensures { result.now ≡ self.now }
    {
        &self.forms[..self.len as usize]
    }

    /// Adds a form at the end, if there is room.
    pub fn add(&mut self, form: Form)
        ensures { (self.new ≡ self.old ++ form ∷ []) ⊎ (self.new ≡ self.old) }
    {
        if (self.len as usize) < FORMS {
            self.forms[self.len as usize] = form;
            self.len += 1;
        }
    }
}

/// Forms by their signs at the third unit vector.
#[derive(Drop)]
pub(crate) struct Slopes {
    pub rising: Forms,
    pub level: Forms,
    pub falling: Forms,
}

impl Slopes {
    /// No forms of any sign.
    pub fn new() -> Slopes
        ensures rising { result.rising ≡ [] }
        ensures level { result.level ≡ [] }
        ensures falling { result.falling ≡ [] }
    {
        Slopes {
            rising: Forms::new(),
            level: Forms::new(),
            falling: Forms::new(),
        }
    }

    /// Adds a form, if there is room.
    pub fn add(&mut self, form: Form)
        ensures rising { (self.new.rising ≡ self.old.rising ++ form ∷ []) ⊎ (self.new.rising ≡ self.old.rising) }
        ensures level { (self.new.level ≡ self.old.level ++ form ∷ []) ⊎ (self.new.level ≡ self.old.level) }
        ensures falling { (self.new.falling ≡ self.old.falling ++ form ∷ []) ⊎ (self.new.falling ≡ self.old.falling) }
    {
        match form.slope() {
            Sign::Plus => self.rising.add(form),
            Sign::Zero => self.level.add(form),
            Sign::Minus => self.falling.add(form),
        }
    }
}
