//! A provider's threshold key as a function of shares.
ghost use Rattle.std.specs.Prelude.{◌≡◌, ◌≤◌, length};

use crate::keys::ThresholdKey;
use crate::share::threshold_share;
use seed_expansion::Expander;
use spl_words::{Provider, ShareFn};

/// The shares of a provider under its key of a tree. The key has at most 128 levels.
#[derive(Drop)]
pub struct ThresholdEval<'a, E: Expander> {
    pub expander: &'a E,
    pub provider: Provider,
    pub tree: u32,
    pub key: &'a ThresholdKey,
    pub ghost levels: { length key.now.levels ≤ 128 },
}

impl<'a, E: Expander> ThresholdEval<'a, E> {
    /// The shares under this key.
    pub fn new(
        expander: &'a E,
        provider: Provider,
        tree: u32,
        key: &'a ThresholdKey,
    ) -> ThresholdEval<'a, E>
        requires { length key.now.levels ≤ 128 }
        ensures expander { result.expander.now ≡ expander.now }
        ensures provider { result.provider ≡ provider }
        ensures tree { result.tree ≡ tree }
        ensures key { result.key.now ≡ key.now }
    {
        ThresholdEval {
            expander,
            provider,
            tree,
            key,
        }
    }
}

impl<'a, E: Expander> ShareFn for ThresholdEval<'a, E> {
    ghost use Rattle.interval_keys.specs.Thresholds.{threshold_share};

    ghost bits = { λ f. length f.key.now.levels };

    ghost word = { λ f x. threshold_share (E.meaning f.expander.now) f.provider f.tree f.key.now x };

    fn depth(&self) -> u32 {
        self.key.levels.len() as u32
    }

    fn share(&self, x: u128) -> u64 {
        threshold_share(self.expander, self.provider, self.tree, self.key, x)
    }
}
