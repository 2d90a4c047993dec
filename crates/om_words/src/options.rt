//! Numbers within a range, and options `--name=K`, in any order and each at most once.

ghost use Rattle.std.specs.Prelude.{◌≡◌, ◌≤◌, ◌<◌, ◌+◌, ◌^◌, map, length, string_bytes, is_some, IfSome};
ghost use Rattle.om_words.specs.Readings.{IsReadBehind};
ghost use Rattle.om_words.specs.Options.{number_within, given_number, is_given, is_option, AreOptions, number_of};
ghost use Rattle.om_words.specs.Options.{greatest_number};

use super::setting::{Setting, default_number, greatest_number, least_number, option_text};
use om_lines::words::unsigned_number;
use om_printing::Usage;

/// The number from `least` to `greatest` that the word spells: decimal digits without a leading zero, except for
/// `0` itself.
pub fn number_within(word: &[u8], least: u32, greatest: u32) -> Option<u32>
    ensures value { result ≡ number_within least greatest word.now }
    ensures within { IfSome result (λ n. n ≤ greatest) }
{
    match unsigned_number(word, u64::from(greatest)) {
        Some(number) if u64::from(least) <= number => Some(number as u32),
        _ => None,
    }
}

/// The number that the word gives to a setting.
fn given_number(setting: Setting, word: &[u8]) -> Option<u32>
    ensures value { result ≡ given_number setting word.now }
    ensures within { IfSome result (λ n. n ≤ greatest_number setting) }
{
    let text = option_text(setting).as_bytes();
    if word.starts_with(text) {
        number_within(
            &word[text.len()..],
            least_number(setting),
            greatest_number(setting),
        )
    } else {
        None
    }
}

/// Whether the word gives a number to the setting.
fn gives(word: &String, setting: Setting) -> bool
    ensures { result ≡ is_some (given_number setting (string_bytes word.now)) }
{
    given_number(setting, word.as_bytes()).is_some()
}

/// Whether some word gives a number to the setting.
fn is_given(setting: Setting, words: &[String]) -> bool
    ensures { result ≡ is_given setting (map string_bytes words.now) }
{
    for word in words {
        if gives(word, setting) {
            return true;
        }
    }
    false
}

/// Whether the word gives a number to one of the settings, and no earlier word gives one to this setting.
fn is_option(settings: &[Setting], before: &[String], word: &String) -> bool
    ensures { result ≡ is_option settings.now (map string_bytes before.now) (string_bytes word.now) }
{
    settings.iter().any(|setting| gives(word, *setting) && !is_given(*setting, before))
}

/// Checks that the words are options of these settings, in any order and each at most once. They follow the first
/// `passed` words of a command.
pub fn options(settings: &[Setting], words: &[String], passed: u32) -> Result<(), Usage>
    requires { passed + length settings.now + 1 < 2 ^ 32 }
    ensures { IsReadBehind passed (AreOptions settings.now) (map string_bytes words.now) result }
{
    for (i, word) in words.iter().enumerate() {
        if !is_option(settings, &words[..i], word) {
            return Err(Usage {
                word: passed + i as u32 + 1,
            });
        }
    }
    Ok(())
}

/// The number of a setting after these words: the one that the first word for this setting gives, or else its
/// default.
pub fn number_of(words: &[String], setting: Setting) -> u32
    ensures value { result ≡ number_of (map string_bytes words.now) setting }
    ensures within { result ≤ greatest_number setting }
{
    for word in words {
        if let Some(number) = given_number(setting, word.as_bytes()) {
            return number;
        }
    }
    default_number(setting)
}
