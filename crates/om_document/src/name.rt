ghost use Rattle.std.specs.Prelude.{◌≡◌, cond, Some, None};
ghost use Rattle.std.specs.List.{list_all};
ghost use Rattle.om_document.specs.Names.{is_name_byte, is_name};

use om_signs::MAX_NAME;
use std::marker::Model;

/// The name of an element: 1 to [`MAX_NAME`](om_signs::MAX_NAME) bytes, each a letter from `A` to `Z` or from `a`
/// to `z`, a digit or `_`. Contracts see the list of the bytes. Two names are equal if their bytes are.
#[derive(Clone, Copy, Debug, PartialEq, Eq)]
pub struct Name {
    /// The bytes of the name, followed by zeros.
    bytes: [u8; MAX_NAME],
    len: u8,
}

impl Model for Name {
    ghost use Rattle.std.specs.Prelude.{ℕ, List, take, length};
    ghost use Rattle.om_document.specs.NameBytes.{IsPaddedName, padded, padded_back, count_back};

    ghost Value = { List ℕ };

    ghost view = { λ n. take n.len n.bytes };

    ghost invariant = { λ n. IsPaddedName n.bytes n.len };

    ghost inverse = { λ w. record { bytes = padded w; len = length w } };

    ghost inverse_ok = { λ n h. Prim.simp (padded_back, count_back) };
}

fn is_name_byte(byte: u8) -> bool
    ensures { result ≡ is_name_byte byte }
{
    (b'A' <= byte && byte <= b'Z')
        || (b'a' <= byte && byte <= b'z')
        || (b'0' <= byte && byte <= b'9')
        || byte == b'_'
}

fn are_name_bytes(bytes: &[u8]) -> bool
    ensures { result ≡ list_all is_name_byte bytes.now }
{
    bytes.iter().all(|b| is_name_byte(*b))
}

impl Name {
    /// The name with these bytes, or None exactly if the bytes are no name.
    pub fn new(bytes: &[u8]) -> Option<Name>
        ensures { result ≡ cond (is_name bytes.now) (Some bytes.now) None }
    {
        if bytes.is_empty() || MAX_NAME < bytes.len() || !are_name_bytes(bytes) {
            return None;
        }
        let mut kept = [0u8; MAX_NAME];
        kept[..bytes.len()].copy_from_slice(bytes);
        Some(Name {
            bytes: kept,
            len: bytes.len() as u8,
        })
    }

    /// The bytes of the name.
    pub fn as_bytes(&self) -> &[u8]
        ensures { result.now ≡ self.now }
    {
        &self.bytes[..self.len as usize]
    }
}
