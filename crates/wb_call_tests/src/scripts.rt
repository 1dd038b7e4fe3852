//! Reads scripts. The first has lines of most kinds; it is run, and objects of its classes are made. The second is run for its rises. The
//! others have a fault.

ghost use Rattle.std.specs.Prelude.{IfOk, IsTrue};
ghost use Rattle.wb_tree.specs.Sound.{is_script};

use crate::objects::make_objects;
use crate::rises_of_runs::run_for_rises;
use crate::runs::run_script;
use crate::stop::Stop;
use std::alloc::Global;
use wb_language::fault::ScriptFault;
use wb_script::read;
use wb_tree::script::Script;

/// A script with classes, an operation, calls, a TRAP, texts, settings and notes.
static SCRIPT: &[u8] = b"class Item 4
field next Item
field text
construct
allocl self.text 8
end
destroy
free self.text
end
end
class Plain 20
end
op undo cell
free cell
end
proc fill count:int
ptr cell
buf line 8
copy line \"cells\"
repeat count
allocl cell 16
push cell
end
print line
popdestroy count
end
proc main
ptr item Item
ptr text
ptr lost
int code
hnewl text 4
append text \"ok\"
allocl lost 4
pushop lost undo
newleave item Item
pushobj item
trap code
call fill 7
end
print code
hrealloc text text 40
failnext 1
alloc lost 100
heap
alloc lost 200
mark
alloc lost 60
available
compress
set code 3
leave code
end
";

/// A script most of whose attempts aren't rises, because the cells are below the end of a long cell that was released. The script has cells
/// of more levels than a heap keeps counts of, also in an outer level after inner levels have ended. The script has attempts that fail, in
/// a TRAP and as the last attempt. The script also has an object, texts, and pushes that make the cleanup stack grow.
static BELOW_THE_TOP: &[u8] = b"class Item 4
field next Item
end
proc main
ptr big
ptr cell
ptr item Item
ptr text
int code
int n
allocl big 20000
free big
repeat 70
mark
alloc cell 16
end
set n 1
repeat 10
alloc cell 16
realloc cell cell 40
realloc cell cell 8
free cell
check n
markend n
add n 1
end
hnewl text 4
hrealloc text text 40
failnext 1
hrealloc text text 400
newleave item Item
failnext 1
new item Item
trap code
mark
repeat 18
allocl cell 8
push cell
end
failnext 1
allocl cell 8
end
trap code
failnext 1
allocl cell 8
end
alloc cell 50
end
";

/// Scripts with a fault. A different check finds the fault of each script.
static FAULTY: [&[u8]; 6] = [
    b"proc main\nptr a\n\x07\nend",
    b"proc main\nptr a\nelse\nend",
    b"proc main\nptr a\nalloc b 4\nend",
    b"proc main\nptr a\nint a\nend",
    b"proc main\nptr a\nadd a 4\nend",
    b"proc start\nptr a\nalloc a 4\nend",
];

/// Reads the scripts, and runs the two that have no fault.
pub(crate) fn read_scripts(rt: &HostRuntime) -> Result<(), Stop> {
    for bytes in &FAULTY {
        write_fault(rt, bytes)?;
    }
    match read_again(rt.alloc(), SCRIPT) {
        Ok(script) => use_script(rt, &script)?,
        Err(_) => return Err(Stop::NoMemory),
    }
    match read_again(rt.alloc(), BELOW_THE_TOP) {
        Ok(script) => run_for_rises(rt, &script),
        Err(_) => Err(Stop::NoMemory),
    }
}

/// Reads a script with a fault, and prints the fault.
fn write_fault(rt: &HostRuntime, bytes: &[u8]) -> Result<(), Stop> {
    match read_again(rt.alloc(), bytes) {
        Err(ScriptFault::NoMemory) => Err(Stop::NoMemory),
        Err(fault) => {
            println!(rt; "read: {fault:?}")?;
            Ok(())
        }
        Ok(_) => {
            println!(rt; "read: no fault")?;
            Ok(())
        }
    }
}

/// Calls `read`. If memory ran out, calls it a second time.
fn read_again(alloc: Global, bytes: &[u8]) -> Result<Script, ScriptFault>
    ensures { IfOk result (λ script. IsTrue (is_script script)) }
{
    match read(alloc, bytes) {
        Ok(script) => Ok(script),
        Err(ScriptFault::NoMemory) => read(alloc, bytes),
        Err(fault) => Err(fault),
    }
}

/// Prints how many classes, procedures, operations and literals a script has, makes objects of its classes, and runs the script.
fn use_script(rt: &HostRuntime, script: &Script) -> Result<(), Stop>
    requires { IsTrue (is_script script.now) }
{
    println!(rt;
        "read: {} classes, {} procedures, {} operations, {} literals",
        script.classes.len(),
        script.procedures.len(),
        script.operations.len(),
        script.literals.len()
    )?;
    make_objects(rt, script)?;
    run_script(rt, script)
}
