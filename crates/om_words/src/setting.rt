//! The settings to which options give numbers, and the ranges of these numbers.

ghost use Rattle.std.specs.Prelude.{◌≡◌, ◌≤◌};
ghost use Rattle.om_words.specs.Options.{option_text, least_number, greatest_number, default_number};

use om_signs::{MAX_BOX, MAX_DRAWN, MAX_LINES, MAX_PIVOTS, MAX_STEPS, MIN_DRAWN};

/// A setting to which an option gives a number.
#[derive(Clone, Copy)]
pub enum Setting {
    /// The greatest number of lines of a listing.
    First,
    /// The greatest absolute value of a coordinate in a search for vectors.
    BoxSize,
    /// The greatest number of steps of that search.
    Steps,
    /// The greatest number of pivots of a run of the tableau.
    Pivots,
    /// The number of vectors that are made.
    Count,
}

/// The text of an option before its number.
pub fn option_text(setting: Setting) -> &'static str
    ensures { result.now ≡ option_text setting }
{
    match setting {
        Setting::First => "--first=",
        Setting::BoxSize => "--box=",
        Setting::Steps => "--steps=",
        Setting::Pivots => "--pivots=",
        Setting::Count => "--count=",
    }
}

/// The least number that the option may give.
pub fn least_number(setting: Setting) -> u32
    ensures { result ≡ least_number setting }
{
    match setting {
        Setting::Count => u32::from(MIN_DRAWN),
        _ => 1,
    }
}

/// The greatest number that the option may give.
pub fn greatest_number(setting: Setting) -> u32
    ensures { result ≡ greatest_number setting }
{
    match setting {
        Setting::First => MAX_LINES as u32,
        Setting::BoxSize => u32::from(MAX_BOX),
        Setting::Steps => MAX_STEPS as u32,
        Setting::Pivots => MAX_PIVOTS,
        Setting::Count => u32::from(MAX_DRAWN),
    }
}

/// The number of a setting if no option gives one.
pub fn default_number(setting: Setting) -> u32
    ensures { result ≡ default_number setting }
{
    match setting {
        Setting::First => 100_000,
        Setting::BoxSize => 6,
        Setting::Steps => 2_000_000,
        Setting::Pivots => 20_000,
        Setting::Count => u32::from(MAX_DRAWN),
    }
}
