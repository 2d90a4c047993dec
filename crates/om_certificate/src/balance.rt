//! The check whether a list of entries is a certificate.

ghost use Rattle.std.specs.Prelude.{ℕ, ◌≡◌, ◌+◌, ◌*◌, ◌<◌, ◌≤◌, ◌^◌, ◌↔◌, length, All, IfErr, OnOk, IfSome, IfNone};
ghost use Rattle.std.specs.Prelude.{IsTrue, slice_index};
ghost use Rattle.om_subsets.specs.Subsets.{choose};
ghost use Rattle.om_certificate.specs.Certificates.{IsCertificate, AreLawful, AreBalanced, HasStrict, times_among};
ghost use Rattle.om_certificate.specs.Validity.{AreEntriesWithinLimits};
ghost use Rattle.om_certificate.specs.Refusals.{IsFirstUnlawful, IsEntryRefusal};
ghost use Rattle.om_certificate.specs.Tables.{AreCounts, IsRaised};

use super::cert_refused::CertRefused;
use super::entry::Entry;
use super::room::ROOM;
use om_chirotope::Chirotope;
use om_grassmann::{lawful, sides};
use om_signs::{MAX_ELEMENTS, MAX_ENTRIES};
use om_subsets::Subset;

/// Whether entries are a certificate, or the first reason against it.
pub fn check_entries(chi: &Chirotope, entries: &[Entry]) -> Result<(), CertRefused>
    requires rank { chi.now.rank ≡ 3 }
    requires part { 3 ≤ chi.now.elements }
    requires limits { AreEntriesWithinLimits entries.now }
    ensures accepted { OnOk result (IsCertificate chi.now entries.now) }
    ensures refused { IfErr result (IsEntryRefusal chi.now entries.now) }
{
    if let Some(entry) = first_unlawful(chi, entries) {
        return Err(CertRefused::Unlawful { entry });
    }
    check_balance(chi, entries)?;
    if has_strict(entries) {
        Ok(())
    } else {
        Err(CertRefused::NoStrict)
    }
}

/// Whether some entry is strict.
fn has_strict(entries: &[Entry]) -> bool
    ensures { IsTrue result ↔ HasStrict entries.now }
{
    entries.iter().any(|entry| entry.statement.strict)
}

/// The number, from 1, of the first entry whose statement isn't lawful, or None.
fn first_unlawful(chi: &Chirotope, entries: &[Entry]) -> Option<u32>
    requires { length entries.now ≤ MAX_ENTRIES }
    ensures none { IfNone result (AreLawful chi.now entries.now) }
    ensures first { IfSome result (λ k. IsFirstUnlawful chi.now entries.now k) }
{
    for (i, entry) in entries.iter().enumerate() {
        if !lawful(chi, entry.statement) {
            return Some(i as u32 + 1);
        }
    }
    None
}

/// Whether each bracket occurs equally often on both sides; otherwise the first bracket that doesn't.
fn check_balance(chi: &Chirotope, entries: &[Entry]) -> Result<(), CertRefused>
    requires rank { chi.now.rank ≡ 3 }
    requires part { 3 ≤ chi.now.elements }
    requires limits { AreEntriesWithinLimits entries.now }
    requires lawful { AreLawful chi.now entries.now }
    ensures accepted { OnOk result (AreBalanced chi.now entries.now) }
    ensures refused { IfErr result (IsEntryRefusal chi.now entries.now) }
{
    let n = chi.elements();
    let mut small = [0u128; ROOM];
    let mut big = [0u128; ROOM];
    count_brackets(chi, entries, &mut small, &mut big);
    for place in 0..Subset::choose(n, 3) {
        let k = place as usize;
        if small[k] != big[k] {
            return Err(CertRefused::Unbalanced {
                bracket: Subset::unrank(place, 3, n),
                small: small[k],
                big: big[k],
            });
        }
    }
    Ok(())
}

/// Counts how often each bracket occurs on small and on big sides, starting with tables of zeros.
fn count_brackets(chi: &Chirotope, entries: &[Entry], small: &mut [u128], big: &mut [u128])
    requires rank { chi.now.rank ≡ 3 }
    requires limits { AreEntriesWithinLimits entries.now }
    requires lawful { AreLawful chi.now entries.now }
    requires small_room { choose chi.now.elements 3 ≤ length small.old }
    requires big_room { choose chi.now.elements 3 ≤ length big.old }
    requires small_empty { All (λ k. k ≡ 0) small.old }
    requires big_empty { All (λ k. k ≡ 0) big.old }
    ensures { AreCounts chi.now.elements entries.now small.new big.new }
{
    for entry in entries {
        let (small_first, small_second, big_first, big_second) = sides(
            entry.statement,
            chi.elements(),
        );
        raise(small, small_first, small_second, entry.times);
        raise(big, big_first, big_second, entry.times);
    }
}

/// Adds a multiplicity at the places of two brackets.
fn raise(table: &mut [u128], first: Subset, second: Subset, times: u64)
    requires first { length first.elements ≡ 3 }
    requires second { length second.elements ≡ 3 }
    requires same { second.n ≡ first.n }
    requires room { choose first.n 3 ≤ length table.old }
    requires fits { (k : ℕ) → slice_index table.old k + 2 * times < 2 ^ 128 }
    ensures { IsRaised first.n (λ b. times_among b first.elements second.elements) times table.old table.new }
{
    table[first.rank() as usize] += times as u128;
    table[second.rank() as usize] += times as u128;
}
