//! How many states a search may meet before the sets themselves are tried one by one. Nothing here changes what a sweep answers, only how
//! long it takes.

/// A search may always meet at least this many states. It meets them in a moment, even if no runs meet again and the search is in vain.
const LEAST: u32 = 1_000;

/// The number of sets allows no more states than this, because states take memory until the search is over. `STATES` may allow more states.
const MOST: u32 = 100_000;

/// How many sets a state is worth. A state is kept and compared with others, while a set is one run, which is judged and dropped.
const SETS: u64 = 8;

/// How many states are allowed for each attempt of the run without failure, whatever the number of sets. If a script's loop makes runs meet
/// again, there are about three states for each attempt, so the search is worth its time for any number of attempts.
const STATES: u32 = 16;

/// How many sets of 2 to `most` attempts can be formed from `last` attempts. If the number doesn't fit, the result is a smaller number that
/// is still worth more than `MOST` states.
fn sets_to(last: u32, most: u32) -> u64 {
    let mut of_one_size = u64::from(last);
    let mut all: u64 = 0;
    for fewer in 1..most.min(last) {
        let left = u64::from(last.saturating_sub(fewer));
        of_one_size = of_one_size.saturating_mul(left) / (u64::from(fewer) + 1);
        all = all.saturating_add(of_one_size);
    }
    all
}

/// How many states a search for sets of at most `most` attempts may meet, if the run without failure makes `last` attempts. If runs meet
/// again, there are far fewer states than sets, and the search is over soon. If runs don't meet again, the search is given up after about
/// an eighth of the work that the sets themselves take.
pub(crate) fn states_worth(last: u32, most: u32) -> u32 {
    let by_sets = match u32::try_from(sets_to(last, most) / SETS) {
        Ok(states) => states.clamp(LEAST, MOST),
        Err(_) => MOST,
    };
    by_sets.max(last.saturating_mul(STATES))
}
