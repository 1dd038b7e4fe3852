//! Rules and failures as the tables of the tests write them. A static can't hold a [`Rule`] or a [`Failing`], because each may own a list.

use wb_heap_model::heap::Rule;
use wb_runs::failures::Failing;

/// Which attempts fail.
#[derive(Clone, Copy, Debug, PartialEq, Eq)]
pub(crate) enum Refuses {
    Nothing,
    Past(u32),
    Number(u32),
    Every(u32),
    From(u32),
    Pair(u32, u32),
}

impl Refuses {
    /// Returns which attempts a failure makes fail; `Nothing` for a set, which no row has.
    pub(crate) fn of(at: &Failing) -> Refuses {
        match at {
            Failing::Number(number) => Refuses::Number(*number),
            Failing::Every(rate) => Refuses::Every(*rate),
            Failing::From(first) => Refuses::From(*first),
            Failing::Pair(first, second) => Refuses::Pair(*first, *second),
            Failing::Set(_) => Refuses::Nothing,
        }
    }

    pub(crate) fn rule(self) -> Rule {
        match self {
            Refuses::Nothing => Rule::Unlimited,
            Refuses::Past(limit) => Rule::Limit(limit),
            Refuses::Number(number) => Rule::Number(number),
            Refuses::Every(rate) => Rule::Every(rate),
            Refuses::From(first) => Rule::From(first),
            Refuses::Pair(first, second) => Rule::Pair(first, second),
        }
    }
}
