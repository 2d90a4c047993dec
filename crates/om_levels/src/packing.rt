//! Signs in bytes, four to a byte.

ghost use Rattle.std.specs.Prelude.{◌≡◌, ◌≤◌, ◌<◌, ◌+◌, ◌++◌, length, IfOk, OnOk, OnErr};
ghost use Rattle.om_signs.specs.Order.{sign_rank};
ghost use Rattle.om_signs.specs.SignVec.{at};
ghost use Rattle.om_levels.specs.Packing.{sign_of_code, sign_in, bytes_for, packed_byte, packed, unpacked};

use om_signs::{List, NoMemory, Sign};
use std::alloc::Global;

/// The number of signs in a byte.
const SIGNS: usize = 4;

/// The number of bytes of so many signs.
pub(crate) fn bytes_for(signs: usize) -> usize
    ensures { result ≡ bytes_for signs }
{
    signs / SIGNS + usize::from(signs % SIGNS > 0)
}

/// The number that stands for a sign: 0 for minus, 1 for zero, and 2 for plus.
fn code_of(sign: Sign) -> u8
    ensures value { result ≡ sign_rank sign }
    ensures small { result ≤ 2 }
{
    match sign {
        Sign::Minus => 0,
        Sign::Zero => 1,
        Sign::Plus => 2,
    }
}

/// The sign for which a number stands.
fn sign_of_code(code: u8) -> Sign
    ensures { result ≡ sign_of_code code }
{
    match code {
        0 => Sign::Minus,
        1 => Sign::Zero,
        _ => Sign::Plus,
    }
}

/// The sign at a place of a list, and zero behind its end.
fn sign_or_zero(signs: &[Sign], place: usize) -> Sign
    ensures { result ≡ at signs.now place }
{
    if place < signs.len() {
        signs[place]
    } else {
        Sign::Zero
    }
}

/// The byte with the number k of a list of signs. It has zeros behind the last sign.
fn packed_byte(signs: &[Sign], k: usize) -> u8
    requires { k < bytes_for (length signs.now) }
    ensures { result ≡ packed_byte signs.now k }
{
    let first = SIGNS * k;
    let a = code_of(sign_or_zero(signs, first));
    let b = code_of(sign_or_zero(signs, first + 1));
    let c = code_of(sign_or_zero(signs, first + 2));
    let d = code_of(sign_or_zero(signs, first + 3));
    a + 4 * (b + 4 * (c + 4 * d))
}

/// Adds the bytes of a list of signs.
///
/// [`NoMemory`] comes only if memory runs out, and the bytes are then as before.
pub(crate) fn push_packed(bytes: &mut Vec<u8>, signs: &[Sign]) -> Result<(), NoMemory>
    ensures ok { OnOk result (bytes.new.items ≡ bytes.old.items ++ packed signs.now) }
    ensures err { OnErr result (bytes.new.items ≡ bytes.old.items) }
{
    let start = bytes.len();
    for k in 0..bytes_for(signs.len()) {
        if bytes.push(packed_byte(signs, k)).is_err() {
            bytes.truncate(start);
            return Err(NoMemory);
        }
    }
    Ok(())
}

/// The sign at a place of a byte, from 0 to 3.
fn sign_in(byte: u8, place: usize) -> Sign
    requires { place < 4 }
    ensures { result ≡ sign_in byte place }
{
    let shifted = match place {
        0 => byte,
        1 => byte / 4,
        2 => byte / 16,
        _ => byte / 64,
    };
    sign_of_code(shifted % 4)
}

/// So many signs, whose bytes begin at `from`.
///
/// [`NoMemory`] comes only if memory runs out.
pub(crate) fn unpack(
    alloc: Global,
    bytes: &[u8],
    from: usize,
    count: usize,
) -> Result<List<Sign>, NoMemory>
    requires { from + bytes_for count ≤ length bytes.now }
    ensures { IfOk result (λ signs. signs ≡ unpacked count bytes.now from) }
{
    let mut signs = List::new(alloc);
    for place in 0..count {
        let byte = bytes[from + place / SIGNS];
        signs.push(sign_in(byte, place % SIGNS))?;
    }
    Ok(signs)
}
