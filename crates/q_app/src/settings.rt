// The options of `simplify`.
ghost use Rattle.std.specs.Prelude.{◌≡◌, ◌≢◌, ◌≤◌, option_map, Some};
ghost use Rattle.q_app.specs.Words.{behind, bounds_of, nothing_set, number_of, only_budget, options_of, seconds_in, setting_of, with_setting, with_word, with_words};
ghost use Rattle.q_app.specs.Operands.{texts};

use q_logic::Bounds;
use q_simplify::Options;

/// An option, with its number where it has one.
#[derive(Clone, Copy, Debug, PartialEq, Eq)]
pub(crate) enum Setting {
    Grow(u32),
    Expand(u32),
    Budget(u64),
    /// So many seconds, of `--time=`.
    Seconds(u64),
    Plain,
}

/// The options so far.
#[derive(Clone, Copy, Debug, PartialEq, Eq)]
pub(crate) struct Settings {
    grow: Option<u32>,
    expand: Option<u32>,
    budget: Option<u64>,
    pub seconds: Option<u64>,
    pub plain: bool,
}

// The greatest bound that can be set.
const MOST: u64 = 10_000;

// The greatest number of seconds.
const MOST_SECONDS: u64 = 4_294_967_295;

/// The number of a text of digits, where it is not too large.
pub(crate) fn number(text: &[u8], most: u64) -> Option<u64>
    ensures { result ≡ number_of most text.now }
{
    if text.is_empty() {
        return None;
    }
    let mut value = 0u64;
    for byte in text {
        if *byte < b'0' || *byte > b'9' {
            return None;
        }
        let digit = u64::from(*byte - b'0');
        if digit > most || value > (most - digit) / 10 {
            return None;
        }
        value = 10 * value + digit;
    }
    Some(value)
}

/// What stands behind a front, where the word begins with it.
pub(crate) fn strip<'a>(word: &'a str, front: &[u8]) -> Option<&'a [u8]>
    ensures { option_map (λ x. x.now) result ≡ behind front.now word.now }
{
    match word.as_bytes().strip_prefix(front) {
        Some(rest) => Some(rest),
        None => None,
    }
}

// A number of seconds, which is at least 1.
fn seconds(text: &[u8]) -> Option<u64>
    ensures { result ≡ seconds_in text.now }
{
    let Some(seconds) = number(text, MOST_SECONDS) else {
        return None;
    };
    if seconds == 0 {
        return None;
    }
    Some(seconds)
}

fn parse_setting(word: &str) -> Option<Setting>
    ensures { result ≡ setting_of word.now }
{
    if let Some(text) = strip(word, b"--grow=") {
        return match number(text, MOST) {
            Some(grow) => Some(Setting::Grow(grow as u32)),
            None => None,
        };
    }
    if let Some(text) = strip(word, b"--expand=") {
        return match number(text, MOST) {
            Some(expand) => Some(Setting::Expand(expand as u32)),
            None => None,
        };
    }
    if let Some(text) = strip(word, b"--budget=") {
        return match number(text, u64::MAX) {
            Some(budget) => Some(Setting::Budget(budget)),
            None => None,
        };
    }
    if let Some(text) = strip(word, b"--time=") {
        return match seconds(text) {
            Some(seconds) => Some(Setting::Seconds(seconds)),
            None => None,
        };
    }
    if word == "--plain" {
        return Some(Setting::Plain);
    }
    None
}

impl Settings {
    // One more setting, where it was not set before.
    fn with(self, setting: Setting) -> Option<Settings>
        ensures { result ≡ with_setting self (Some setting) }
    {
        match setting {
            Setting::Grow(grow) if self.grow.is_none() => Some(Settings {
                grow: Some(grow),
                ..self
            }),
            Setting::Expand(expand) if self.expand.is_none() => Some(Settings {
                expand: Some(expand),
                ..self
            }),
            Setting::Budget(budget) if self.budget.is_none() => Some(Settings {
                budget: Some(budget),
                ..self
            }),
            Setting::Seconds(seconds) if self.seconds.is_none() => Some(Settings {
                seconds: Some(seconds),
                ..self
            }),
            Setting::Plain if !self.plain => Some(Settings {
                plain: true,
                ..self
            }),
            _ => None,
        }
    }

    fn with_word(self, word: &str) -> Option<Settings>
        ensures { result ≡ with_word (Some self) word.now }
    {
        match parse_setting(word) {
            Some(setting) => self.with(setting),
            None => None,
        }
    }

    pub fn none() -> Settings
        ensures { result ≡ nothing_set }
    {
        Settings {
            grow: None,
            expand: None,
            budget: None,
            seconds: None,
            plain: false,
        }
    }

    /// The settings of these words.
    pub fn of(words: &[String]) -> Option<Settings>
        ensures { result ≡ with_words (Some nothing_set) (texts words.now) }
    {
        let mut settings = Settings::none();
        for word in words {
            match settings.with_word(word.as_str()) {
                Some(next) => settings = next,
                None => return None,
            }
        }
        Some(settings)
    }

    // What is not set has its default.
    fn bounds(self) -> Bounds
        ensures { result ≡ bounds_of self }
    {
        Bounds {
            grow: self.grow.unwrap_or(0).min(MOST as u32),
            expand: self.expand.unwrap_or(16).min(MOST as u32),
        }
    }

    /// What is not set has its default.
    pub fn options(self) -> Options
        ensures { result ≡ options_of self }
    {
        Options {
            bounds: self.bounds(),
            budget: self.budget,
        }
    }

    /// The budget, where nothing else is set.
    pub fn only_budget(self) -> Option<Option<u64>>
        ensures { result ≡ only_budget (Some self) }
    {
        let is_bounded = self.grow.is_some() || self.expand.is_some();
        if is_bounded || self.seconds.is_some() || self.plain {
            return None;
        }
        Some(self.budget)
    }
}
