//! A debug heap and its copies. At first all of these heaps show the same, and later no change to one heap changes another. The copies are
//! taken before attempt 6, on a heap where neighbours were freed. Attempt 6 then asks for a cell in their place.

use crate::heaps::{Call, Marked};
use crate::stop::Stop;

/// The calls that are made before the copies are taken.
static BEFORE: [Call; 11] = [
    Call::Alloc(128),
    Call::Alloc(16),
    Call::Alloc(16),
    Call::Alloc(16),
    Call::Mark,
    Call::Alloc(16),
    Call::Free((176, 3)),
    Call::Free((144, 2)),
    Call::Free((208, 4)),
    Call::Store((240, 5), 3, 7),
    Call::FailNext(3),
];

/// The calls that change a heap in every way: grants, reallocations, an attempt that a setting from before the copy makes fail, words,
/// marks, settings, releases and a note.
static CHANGES: [Call; 16] = [
    Call::Alloc(80),
    Call::Realloc((240, 5), 48),
    Call::Alloc(16),
    Call::Store((144, 6), 19, 9),
    Call::Store((240, 5), 3, 8),
    Call::Mark,
    Call::Alloc(32),
    Call::MarkEnd(1),
    Call::MarkEnd(3),
    Call::FailEvery(1),
    Call::Alloc(16),
    Call::FailNone,
    Call::Free((144, 6)),
    Call::Alloc(3856),
    Call::Free((352, 11)),
    Call::Compress,
];

/// Changes a copy while the source must stay unchanged. Then changes the source while a second copy, over the memory of the first copy,
/// must stay unchanged.
pub(crate) fn compare_copies(rt: &HostRuntime) -> Result<(), Stop> {
    let mut source = Marked::new(rt.alloc())?;
    change_both(rt, &mut source)
}

fn change_both(rt: &HostRuntime, source: &mut Marked) -> Result<(), Stop> {
    source.make_calls(rt, &BEFORE)?;
    let changed = change_copy(rt, source)?;
    change_source(rt, source, changed)
}

/// Makes a copy, changes the copy, and returns it.
fn change_copy(rt: &HostRuntime, source: &Marked) -> Result<Marked, Stop> {
    let mut copy = source.copy()?;
    change_one(rt, ["copy", "source"], &mut copy, source)?;
    Ok(copy)
}

/// Copies the source over the memory of the copy that was changed before. Then changes the source, and afterwards the new copy in the same
/// way.
fn change_source(rt: &HostRuntime, source: &mut Marked, changed: Marked) -> Result<(), Stop> {
    let mut copy = source.copy_over(changed)?;
    change_in_turn(rt, source, &mut copy)
}

fn change_in_turn(rt: &HostRuntime, source: &mut Marked, copy: &mut Marked) -> Result<(), Stop> {
    change_one(rt, ["source", "copy"], source, copy)?;
    copy.make_calls(rt, &CHANGES)?;
    copy.show(rt, "copy")
}

/// Prints two heaps, changes the heap `changed`, and prints both heaps again.
fn change_one(
    rt: &HostRuntime,
    names: [&str; 2],
    changed: &mut Marked,
    other: &Marked,
) -> Result<(), Stop> {
    let [name, other_name] = names;
    other.show(rt, other_name)?;
    changed.show(rt, name)?;
    changed.make_calls(rt, &CHANGES)?;
    other.show(rt, other_name)?;
    changed.show(rt, name)
}
