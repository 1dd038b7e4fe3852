//! Which attempts the script itself makes fail.

ghost use Rattle.std.specs.Prelude.{◌≡◌};
ghost use Rattle.wb_debug.specs.Setting.{setting_of};
ghost use Rattle.wb_heap_model.specs.Rules.{is_due, after_attempt};

/// The script's own setting. The Symbian OS v9 SDK reference, RHeap, is the source for which attempts the setting makes fail.
#[derive(Clone, Copy, Debug, PartialEq, Eq)]
pub enum Setting {
    /// The setting makes no attempt fail.
    Never,
    /// One attempt fails: the attempt that is this many attempts ahead; 1 is the next attempt.
    Next(u32),
    /// Every `n`-th attempt since the setting was made fails; `n` is the first value. The second value says how many attempts ahead the
    /// next failing attempt is; 1 is the next attempt.
    Each(u32, u32),
}

impl Setting {
    /// Whether the setting makes the next attempt fail.
    pub fn is_due(self) -> bool
        ensures { result ≡ is_due (setting_of self) }
    {
        match self {
            Setting::Never => false,
            Setting::Next(left) | Setting::Each(_, left) => left == 1,
        }
    }

    /// Returns the setting as it is after one more attempt.
    pub fn after_attempt(self) -> Setting
        ensures { setting_of result ≡ after_attempt (setting_of self) }
    {
        match self {
            Setting::Never => Setting::Never,
            Setting::Next(left) if left <= 1 => Setting::Never,
            Setting::Next(left) => Setting::Next(left - 1),
            Setting::Each(rate, left) if left <= 1 => Setting::Each(rate, rate),
            Setting::Each(rate, left) => Setting::Each(rate, left - 1),
        }
    }
}
