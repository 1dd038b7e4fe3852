//! Makes objects of a script's classes, in a heap of their own.

ghost use Rattle.std.specs.Prelude.{◌≡◌, ◌<◌, ◌≤◌, length, true};
ghost use Rattle.wb_tree.specs.Bodies.{class_at};
ghost use Rattle.wb_tree.specs.Bodies.{payload_of_object};

use crate::heaps::SHAPE;
use crate::lines::{show, write_gave};
use crate::stop::Stop;
use std::alloc::AllocError;
use wb_basics::limits::CEILING;
use wb_basics::memory::NoMemory;
use wb_debug::DebugHeap;
use wb_heap_model::heap::{Gave, Rule};
use wb_objects::make;
use wb_tree::script::Script;

/// The index of the class of each object that is made.
const MADE: [u16; 6] = [0, 1, 0, 1, 1, 0];

/// Every third attempt fails. A call that is made a second time still counts as one attempt.
const RULE: Rule = Rule::Every(3);

/// Makes objects, and then prints everything that the heap shows.
pub(crate) fn make_objects(rt: &HostRuntime, script: &Script) -> Result<(), Stop> {
    let Ok(mut heap) = DebugHeap::new(rt.alloc(), RULE, SHAPE) else {
        return Err(Stop::NoMemory);
    };
    make_and_show(rt, &mut heap, script)
}

fn make_and_show(rt: &HostRuntime, heap: &mut DebugHeap, script: &Script) -> Result<(), Stop> {
    for class in MADE {
        let gave = make_again(heap, script, class)?;
        write_gave(rt, "object of class", u32::from(class), gave, heap)?;
    }
    show(rt, "after all objects", heap)
}

/// Calls `make`. If memory ran out, calls it a second time.
fn make_again(heap: &mut DebugHeap, script: &Script, class: u16) -> Result<Gave, NoMemory> {
    if heap.attempts() == u32::MAX || !has_class(script, class) {
        return Err(NoMemory::from(AllocError));
    }
    match make(heap, script, class) {
        Ok(gave) => Ok(gave),
        Err(_) => make(heap, script, class),
    }
}

/// Whether the script has this class, and an object of the class fits below the heap's ceiling.
fn has_class(script: &Script, class: u16) -> bool
    ensures there { result ≡ true → class < length script.now.classes }
    ensures fits { result ≡ true → payload_of_object (class_at script.now class) ≤ CEILING }
{
    match script.classes.get(usize::from(class)) {
        Some(class) => class.fields.len() <= 16 && class.extra <= CEILING - 136,
        None => false,
    }
}
