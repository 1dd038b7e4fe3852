//! Tests of `wb_objects` with worked objects: what the calls on objects return, and which words the objects' cells have.

use crate::object_calls::{Call, ClassRow, WorkedObjects, first_other};
use std::test::Fail;
use wb_heap_model::heap::Panic;

/// Four classes: with one field, with three fields and extra bytes, with neither, and one that is very large. After 160 bytes, no object of
/// the last class fits below the heap's ceiling.
static CLASSES: [ClassRow; 4] = [
    (0, &[None]),
    (20, &[Some(0), None, Some(1)]),
    (0, &[]),
    (16_777_080, &[]),
];

const NULL: (u32, u32) = (0, 0);

static OBJECTS: [WorkedObjects; 8] = [
    WorkedObjects {
        about: "a new object is its class and null fields",
        calls: &[
            Call::Make(1, (0, 1)),
            Call::Header((0, 1), 80, 1),
            Call::ClassOf((0, 1), Ok(1)),
            Call::Words((0, 1), &[1, 0]),
            Call::Zeros((0, 1), 2, 14),
            Call::Field((0, 1), 1, 0, Ok(NULL)),
            Call::Field((0, 1), 1, 2, Ok(NULL)),
            Call::Make(2, (80, 2)),
            Call::Header((80, 2), 32, 2),
            Call::Words((80, 2), &[2, 0, 0, 0]),
            Call::Make(0, (112, 3)),
            Call::Header((112, 3), 32, 0),
            Call::ClassOf((112, 3), Ok(0)),
        ],
    },
    WorkedObjects {
        about: "a field that is set changes alone",
        calls: &[
            Call::Make(1, (0, 1)),
            Call::Make(0, (80, 2)),
            Call::SetField((0, 1), 1, 1, (80, 2), Ok(())),
            Call::Field((0, 1), 1, 0, Ok(NULL)),
            Call::Field((0, 1), 1, 1, Ok((80, 2))),
            Call::Field((0, 1), 1, 2, Ok(NULL)),
            Call::SetField((0, 1), 1, 2, (0, 1), Ok(())),
            Call::SetField((80, 2), 0, 0, (9, 7), Ok(())),
            Call::Words((0, 1), &[1, 0, 0, 0, 80, 2, 0, 1]),
            Call::Zeros((0, 1), 8, 8),
            Call::Words((80, 2), &[0, 0, 9, 7]),
            Call::SetField((0, 1), 1, 1, NULL, Ok(())),
            Call::Words((0, 1), &[1, 0, 0, 0, 0, 0, 0, 1]),
            Call::Header((0, 1), 80, 1),
            Call::Attempts(2),
        ],
    },
    WorkedObjects {
        about: "a pointer that names no cell",
        calls: &[
            Call::ClassOf(NULL, Err(Panic::NULL_OR_STALE)),
            Call::Field(NULL, 0, 0, Err(Panic::NULL_OR_STALE)),
            Call::SetField(NULL, 0, 0, NULL, Err(Panic::NULL_OR_STALE)),
            Call::Make(0, (0, 1)),
            Call::ClassOf((0, 2), Err(Panic::NULL_OR_STALE)),
            Call::ClassOf((16, 1), Err(Panic::NULL_OR_STALE)),
            Call::Field((0, 2), 0, 0, Err(Panic::NULL_OR_STALE)),
            Call::SetField((16, 1), 0, 0, (0, 1), Err(Panic::NULL_OR_STALE)),
            Call::Words((0, 1), &[0, 0, 0, 0]),
        ],
    },
    WorkedObjects {
        about: "the pointer to a freed object stays bad",
        calls: &[
            Call::Make(0, (0, 1)),
            Call::SetField((0, 1), 0, 0, (0, 1), Ok(())),
            Call::Free((0, 1)),
            Call::ClassOf((0, 1), Err(Panic::NULL_OR_STALE)),
            Call::Field((0, 1), 0, 0, Err(Panic::NULL_OR_STALE)),
            Call::Make(0, (0, 2)),
            Call::ClassOf((0, 1), Err(Panic::NULL_OR_STALE)),
            Call::SetField((0, 1), 0, 0, (0, 1), Err(Panic::NULL_OR_STALE)),
            Call::Field((0, 2), 0, 0, Ok(NULL)),
        ],
    },
    WorkedObjects {
        about: "a cell that is no object",
        calls: &[
            Call::Text(6, (0, 1)),
            Call::Alloc(16, (32, 2)),
            Call::ClassOf((0, 1), Err(Panic::WRONG_KIND)),
            Call::ClassOf((32, 2), Err(Panic::WRONG_KIND)),
            Call::Field((0, 1), 0, 0, Err(Panic::WRONG_KIND)),
            Call::Field((32, 2), 0, 0, Err(Panic::WRONG_KIND)),
            Call::SetField((0, 1), 0, 0, (32, 2), Err(Panic::WRONG_KIND)),
            Call::SetField((32, 2), 0, 0, (0, 1), Err(Panic::WRONG_KIND)),
            Call::Words((0, 1), &[0, 0, 0, 0]),
            Call::Words((32, 2), &[0, 0, 0, 0]),
        ],
    },
    WorkedObjects {
        about: "an object of another class",
        calls: &[
            Call::Make(0, (0, 1)),
            Call::Make(1, (32, 2)),
            Call::ClassOf((32, 2), Ok(1)),
            Call::Field((0, 1), 1, 0, Err(Panic::WRONG_KIND)),
            Call::Field((32, 2), 0, 0, Err(Panic::WRONG_KIND)),
            Call::SetField((0, 1), 1, 0, (32, 2), Err(Panic::WRONG_KIND)),
            Call::SetField((32, 2), 0, 0, (0, 1), Err(Panic::WRONG_KIND)),
            Call::Field((0, 1), 0, 0, Ok(NULL)),
            Call::Field((32, 2), 1, 0, Ok(NULL)),
        ],
    },
    WorkedObjects {
        about: "an object that is refused",
        calls: &[
            Call::FailNext(2),
            Call::Make(0, (0, 1)),
            Call::NoMake(1),
            Call::Attempts(2),
            Call::Make(1, (32, 3)),
            Call::Field((32, 3), 1, 1, Ok(NULL)),
        ],
    },
    WorkedObjects {
        about: "an object that would end past the ceiling",
        calls: &[
            Call::Make(1, (0, 1)),
            Call::Make(1, (80, 2)),
            Call::MakePastCeiling(3),
            Call::Attempts(2),
            Call::ClassOf((80, 2), Ok(1)),
        ],
    },
];

#[test]
fn worked_objects(rt: HostRuntime) -> Result<(), Fail> {
    for objects in &OBJECTS {
        assert_eq!(rt;
            first_other(rt.alloc(), &CLASSES, objects)?,
            None,
            "{}",
            objects.about
        );
    }
    Ok(())
}
