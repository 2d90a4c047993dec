ghost use Rattle.std.specs.Prelude.{◌≡◌};
ghost use Rattle.om_signs.specs.Sign.{opposite, product, is_plus, is_minus};

use std::cmp::Ordering;

/// A sign. The order is minus, zero, plus.
///
/// Source: Björner, Las Vergnas, Sturmfels, White and Ziegler, Oriented Matroids, chapter 3.
#[derive(Clone, Copy, Debug, PartialEq, Eq, Hash)]
pub enum Sign {
    Minus,
    Zero,
    Plus,
}

impl Sign {
    /// The opposite sign: minus and plus are exchanged, and zero stays.
    pub fn neg(self) -> Sign
        ensures { result ≡ opposite self }
    {
        match self {
            Sign::Minus => Sign::Plus,
            Sign::Zero => Sign::Zero,
            Sign::Plus => Sign::Minus,
        }
    }

    /// The sign of the product of two numbers with these signs.
    pub fn times(self, other: Sign) -> Sign
        ensures { result ≡ product self other }
    {
        match self {
            Sign::Minus => other.neg(),
            Sign::Zero => Sign::Zero,
            Sign::Plus => other,
        }
    }

    /// 1 for a plus, and 0 for the other signs.
    pub fn plus_bit(self) -> u32
        ensures { result ≡ is_plus self }
    {
        match self {
            Sign::Plus => 1,
            _ => 0,
        }
    }

    /// 1 for a minus, and 0 for the other signs.
    pub fn minus_bit(self) -> u32
        ensures { result ≡ is_minus self }
    {
        match self {
            Sign::Minus => 1,
            _ => 0,
        }
    }
}

impl Ord for Sign {
    ghost use Rattle.std.specs.Prelude.{◌≡◌, Some, refl};
    ghost use Rattle.std.specs.Ordering.{is_eq};
    ghost use Rattle.om_signs.specs.contracts.sign.SignPartialEq.TheImpl.{ghosts as equality};
    ghost use Rattle.om_signs.specs.Order.{sign_order};
    ghost use Rattle.om_signs.specs.OrderLaws.{sign_order-total, by_pairs};

    ghost cmp = { sign_order };

    ghost total = { sign_order-total };

    ghost matches_partial_cmp = { λ s t i. Some (sign_order s t) };

    ghost matches_eq = { λ s t. by_pairs (λ s t. equality.eq s t ≡ is_eq (sign_order s t)) s t
        refl refl refl refl refl refl refl refl refl };

    fn cmp(&self, other: &Sign) -> Ordering {
        (*self as u8).cmp(&(*other as u8))
    }
}

impl PartialOrd for Sign {
    ghost use Rattle.std.specs.Prelude.{◌≡◌, Some, refl};
    ghost use Rattle.std.specs.Ordering.{as_partial_cmp, is_eq};
    ghost use Rattle.std.specs.Cmp.{partial_order_from_agreeing_total};
    ghost use Rattle.om_signs.specs.contracts.sign.SignPartialEq.TheImpl.{ghosts as equality};
    ghost use Rattle.om_signs.specs.Order.{sign_order};
    ghost use Rattle.om_signs.specs.OrderLaws.{sign_order-total, by_pairs};

    ghost partial_cmp = { as_partial_cmp sign_order };

    ghost laws = { partial_order_from_agreeing_total sign_order sign_order-total (λ s t i. Some (sign_order s t))
        (λ s t. by_pairs (λ s t. equality.eq s t ≡ is_eq (sign_order s t)) s t refl refl refl refl refl refl refl refl
        refl) };

    fn partial_cmp(&self, other: &Sign) -> Option<Ordering> {
        Some(self.cmp(other))
    }
}
