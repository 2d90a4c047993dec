//! How often a sign occurs in a list.

ghost use Rattle.std.specs.Prelude.{◌≡◌, ◌≤◌, length};
ghost use Rattle.om_make.specs.Tallies.{count_of};

use om_signs::Sign;

/// How often a sign occurs in a list. The list is short enough for the number.
pub fn count(signs: &[Sign], wanted: Sign) -> u32
    requires { length signs.now ≤ u32.MAX }
    ensures { result ≡ count_of wanted signs.now }
{
    let mut found = 0;
    for sign in signs {
        if *sign == wanted {
            found += 1;
        }
    }
    found
}
