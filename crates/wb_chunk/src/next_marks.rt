//! Searches for the next block with a mark. Most blocks have no mark, so the search skips many blocks at once.

ghost use Rattle.std.specs.Prelude.{◌≡◌, ◌<◌, ◌≤◌, false, length};
ghost use Rattle.wb_chunk.specs.Marks.{AreUnmarked, IsNextInEither, IsNextMarked};

/// The size of the groups in which marks are tested. Testing a group of constant size needs no loop. The marks that are left after the last
/// whole group are tested as one shorter group.
const TOGETHER: usize = 64;

/// The first block with a mark from block `from` on, or `end` if no block below `end` has one.
pub(crate) fn next_marked(marks: &[bool], from: usize, end: usize) -> usize
    requires { (from ≤ end) × (end ≤ length marks.now) }
    ensures { IsNextMarked marks.now from end result }
{
    if from == end || marks[from] {
        return from;
    }
    search_marked(marks, from, end)
}

/// Does what `next_marked` does, but looks at many marks at once.
#[inline(never)]
fn search_marked(marks: &[bool], from: usize, end: usize) -> usize
    requires { (from ≤ end) × (end ≤ length marks.now) }
    ensures { IsNextMarked marks.now from end result }
{
    let mut block = from;
    while TOGETHER <= end - block {
        if has_mark(marks, block, block + TOGETHER) {
            return first_marked(marks, block, block + TOGETHER);
        }
        block += TOGETHER;
    }
    if has_mark(marks, block, end) {
        return first_marked(marks, block, end);
    }
    end
}

/// Does what `next_marked` does, but looks at one mark after another.
fn first_marked(marks: &[bool], from: usize, end: usize) -> usize
    requires { (from ≤ end) × (end ≤ length marks.now) }
    ensures { IsNextMarked marks.now from end result }
{
    for block in from..end {
        if marks[block] {
            return block;
        }
    }
    end
}

/// The first block from block `from` on that has a mark in at least one of the two lists, or `end` if no block below `end` has one.
pub(crate) fn next_in_either(marks: &[bool], others: &[bool], from: usize, end: usize) -> usize
    requires { (from ≤ end) × (end ≤ length marks.now) × (end ≤ length others.now) }
    ensures { IsNextInEither marks.now others.now from end result }
{
    if from == end || marks[from] || others[from] {
        return from;
    }
    search_either(marks, others, from, end)
}

/// Does what `next_in_either` does, but looks at many marks at once.
#[inline(never)]
fn search_either(marks: &[bool], others: &[bool], from: usize, end: usize) -> usize
    requires { (from ≤ end) × (end ≤ length marks.now) × (end ≤ length others.now) }
    ensures { IsNextInEither marks.now others.now from end result }
{
    let mut block = from;
    while TOGETHER <= end - block {
        let next = block + TOGETHER;
        if has_mark(marks, block, next) || has_mark(others, block, next) {
            return first_in_either(marks, others, block, next);
        }
        block = next;
    }
    if has_mark(marks, block, end) || has_mark(others, block, end) {
        return first_in_either(marks, others, block, end);
    }
    end
}

/// Does what `next_in_either` does, but looks at one mark after another.
fn first_in_either(marks: &[bool], others: &[bool], from: usize, end: usize) -> usize
    requires { (from ≤ end) × (end ≤ length marks.now) × (end ≤ length others.now) }
    ensures { IsNextInEither marks.now others.now from end result }
{
    for block in from..end {
        if marks[block] || others[block] {
            return block;
        }
    }
    end
}

/// Whether any block from `from` on and below `end` has a mark. The loop doesn't stop at a mark, so that the compiled code can read many
/// marks at once.
fn has_mark(marks: &[bool], from: usize, end: usize) -> bool
    requires { (from ≤ end) × (end ≤ length marks.now) }
    ensures off { result ≡ false → AreUnmarked marks.now from end }
    ensures on { AreUnmarked marks.now from end → result ≡ false }
{
    let mut any = false;
    for block in from..end {
        any |= marks[block];
    }
    any
}
