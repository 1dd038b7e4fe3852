//! How to set which attempts fail: by the run's rule and by the script's own setting. Each call replaces the earlier rule or the earlier
//! setting.

ghost use Rattle.std.specs.Prelude.{◌≡◌, ◌≤◌};
ghost use Rattle.wb_heap_model.specs.Debug.{IsSoundDebug, with_setting};
ghost use Rattle.wb_heap_model.specs.SameRules.{SameSoFar};
ghost use Rattle.wb_heap_model.specs.Rules.{each, never, next};

use crate::debug_heap::DebugHeap;
use crate::setting::Setting;
use wb_heap_model::heap::Rule;

impl DebugHeap {
    /// Replaces the rule for all later attempts; the script's own setting and everything else stay. Neither the old rule nor the new rule
    /// may be a limit. For each attempt made so far, both rules must agree on whether the attempt fails. So the heap is as if it had been
    /// made under the new rule. Source: this project's profile.
    pub fn set_rule(&mut self, rule: Rule)
        requires same { SameSoFar rule self.old.rule self.old.attempts }
        ensures set { self.new ≡ record self.old { rule = rule } }
        ensures sound { IsSoundDebug self.new }
    {
        self.rule = rule;
    }

    /// Makes only the `n`-th attempt from now on fail; if `n` is 1, only the next attempt fails. Source: Symbian OS v9 SDK reference,
    /// RHeap::EFailNext.
    pub fn fail_next(&mut self, n: u32)
        requires { 1 ≤ n }
        ensures set { self.new ≡ with_setting self.old (next n) }
        ensures sound { IsSoundDebug self.new }
    {
        self.setting = Setting::Next(n);
    }

    /// Makes every `n`-th attempt from now on fail; `n` is at least 1. Source: Symbian OS v9 SDK reference, RHeap::EDeterministic.
    pub fn fail_every(&mut self, n: u32)
        requires { 1 ≤ n }
        ensures set { self.new ≡ with_setting self.old (each n n) }
        ensures sound { IsSoundDebug self.new }
    {
        self.setting = Setting::Each(n, n);
    }

    /// Ends the script's own setting: from now on, attempts fail only if the rule says so. Source: Symbian OS v9 SDK reference,
    /// RHeap::ENone.
    pub fn fail_none(&mut self)
        ensures set { self.new ≡ with_setting self.old never }
        ensures sound { IsSoundDebug self.new }
    {
        self.setting = Setting::Never;
    }
}
