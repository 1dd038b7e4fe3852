//! Rules as the tables of the tests write them. A [`Rule`] may own a list, which a static can't own; but a static can borrow a list.

use std::alloc::Global;
use wb_basics::memory::NoMemory;
use wb_heap_model::heap::{Numbers, Rule};

/// Which attempts fail.
#[derive(Clone, Copy)]
pub(crate) enum Refuses {
    Nothing,
    Past(u32),
    Number(u32),
    Every(u32),
    From(u32),
    Pair(u32, u32),
    Set(&'static [u32]),
}

impl Refuses {
    pub(crate) fn rule(self, alloc: Global) -> Result<Rule, NoMemory> {
        Ok(match self {
            Refuses::Nothing => Rule::Unlimited,
            Refuses::Past(limit) => Rule::Limit(limit),
            Refuses::Number(number) => Rule::Number(number),
            Refuses::Every(rate) => Rule::Every(rate),
            Refuses::From(first) => Rule::From(first),
            Refuses::Pair(first, second) => Rule::Pair(first, second),
            Refuses::Set(numbers) => Rule::Set(list_of(alloc, numbers)?),
        })
    }
}

fn list_of(alloc: Global, numbers: &[u32]) -> Result<Numbers, NoMemory> {
    let mut list = Numbers::new(alloc);
    for number in numbers {
        list.push(*number)?;
    }
    Ok(list)
}
