//! Marks of the sets that contain a basis: a bit for each set, in words of 64.

ghost use Rattle.std.specs.Prelude.{ℕ, ◌≡◌, ◌≢◌, ◌+◌, ◌*◌, ◌/◌, ◌<◌, ◌≤◌, ◌^◌, ◌↔◌, length, IsTrue};
ghost use Rattle.std.proofs.Math.ListN.{get_or};
ghost use Rattle.om_chirotope.specs.declared.marking.TheConstants.{PLACE_BITS, WORD_BITS};
ghost use Rattle.om_chirotope.specs.Marks.{mark_at, IsMarked, IsSpread, IsWordSpread};
ghost use Rattle.om_chirotope.specs.Pictures.{AreMarked, AreMarkedAbove};

use super::whole_map::WholeMap;
use om_signs::{MAX_ELEMENTS, MAX_PLACES, Sign};
use om_subsets::Subset;

/// The number of bits of a word, each of which is the mark of a set.
const WORD_BITS: usize = 64;

/// The logarithm of [`WORD_BITS`] to base 2: the number of bits of a place in a word.
const PLACE_BITS: u8 = 6;

/// The number of words for the sets of [`MAX_ELEMENTS`] elements.
pub const WORDS: usize = 1 << (MAX_ELEMENTS - PLACE_BITS);

/// The number of words for the sets of 16 elements.
pub const MANY_WORDS: usize = 1 << (16 - PLACE_BITS);

/// The number of words for the sets of 12 elements.
pub const FEW_WORDS: usize = 1 << (12 - PLACE_BITS);

/// The number of words for the sets of [`MAX_PLACES`] elements.
pub const MOST_WORDS: usize = 1 << (MAX_PLACES - PLACE_BITS);

/// At place e, the bits of a word whose numbers don't have bit e.
const LOW: [u64; PLACE_BITS as usize] = [
    0x5555_5555_5555_5555,
    0x3333_3333_3333_3333,
    0x0f0f_0f0f_0f0f_0f0f,
    0x00ff_00ff_00ff_00ff,
    0x0000_ffff_0000_ffff,
    0x0000_0000_ffff_ffff,
];

/// The least number of words that have room for the marks of the sets of `elements` elements.
pub fn number_of_words(elements: u8) -> usize
    requires { elements ≤ MAX_PLACES }
    ensures room { 2 ^ elements ≤ WORD_BITS * result }
    ensures least { (k : ℕ) → 2 ^ elements ≤ WORD_BITS * k → result ≤ k }
{
    ((1usize << elements) + WORD_BITS - 1) / WORD_BITS
}

/// Marks exactly the sets that contain a basis, and removes all other marks.
pub fn mark_sets(map: &WholeMap, words: &mut [u64])
    requires { 2 ^ map.now.elements ≤ WORD_BITS * length words.old }
    ensures { AreMarkedAbove map.now words.new }
{
    clear(words);
    mark_bases(map, words);
    mark_above(map, words);
}

/// Whether the set of a mask is marked.
pub fn is_marked(words: &[u64], set: u32) -> bool
    requires { set / WORD_BITS < length words.now }
    ensures { IsTrue result ↔ IsMarked words.now set }
{
    words[set as usize / WORD_BITS] >> (set as usize % WORD_BITS) & 1 == 1
}

/// Removes all marks.
fn clear(words: &mut [u64])
    ensures room { length words.new ≡ length words.old }
    ensures clear { (i : ℕ) → get_or words.new i 0 ≡ 0 }
{
    for word in words.iter_mut() {
        *word = 0;
    }
}

/// Marks the sets that are bases.
fn mark_bases(map: &WholeMap, words: &mut [u64])
    requires room { 2 ^ map.now.elements ≤ WORD_BITS * length words.old }
    requires clear { (i : ℕ) → get_or words.old i 0 ≡ 0 }
    ensures { AreMarked map.now words.new }
{
    for (place, b) in Subset::all(map.raw.rank, map.raw.elements).enumerate() {
        if is_nonzero(map.sign_of(b, place as u32)) {
            mark(words, b.mask());
        }
    }
}

/// Whether the sign isn't 0.
fn is_nonzero(sign: Sign) -> bool
    ensures { IsTrue result ↔ (sign ≢ Sign.Zero) }
{
    sign != Sign::Zero
}

/// Marks the set of a mask.
fn mark(words: &mut [u64], set: u32)
    requires { set / WORD_BITS < length words.old }
    ensures here { IsMarked words.new set }
    ensures others { (j : ℕ) → j ≢ set → mark_at words.new j ≡ mark_at words.old j }
{
    let i = set as usize / WORD_BITS;
    words[i] |= 1u64 << (set as usize % WORD_BITS);
}

/// Marks each set that contains a marked set. For each element, the set with it takes over the mark of the set
/// without it, a whole word at a time.
fn mark_above(map: &WholeMap, words: &mut [u64])
    requires { AreMarked map.now words.old }
    ensures { AreMarkedAbove map.now words.new }
{
    for e in 0..map.raw.elements {
        spread(words, e);
    }
}

/// Marks, for each marked set without bit e, the set with this bit added.
fn spread(words: &mut [u64], e: u8)
    requires { e < MAX_PLACES }
    ensures { IsSpread words.old words.new e }
{
    if e < PLACE_BITS {
        spread_within(words, e);
    } else {
        spread_over(words, e - PLACE_BITS);
    }
}

/// `spread` for a bit e of the place in a word.
fn spread_within(words: &mut [u64], e: u8)
    requires { e < PLACE_BITS }
    ensures { IsSpread words.old words.new e }
{
    for word in words.iter_mut() {
        *word = spread_in(*word, e);
    }
}

/// The word in which each bit whose number lacks bit e is copied to the number with it.
fn spread_in(word: u64, e: u8) -> u64
    requires { e < PLACE_BITS }
    ensures { IsWordSpread word result e }
{
    word | (word & LOW[e as usize]) << (1u32 << e)
}

/// `spread` for bit d of the number of a word.
fn spread_over(words: &mut [u64], d: u8)
    requires { d + PLACE_BITS < MAX_PLACES }
    ensures { IsSpread words.old words.new (d + PLACE_BITS) }
{
    for i in 0..words.len() {
        if i >> d & 1 == 1 {
            words[i] |= words[i - (1usize << d)];
        }
    }
}
