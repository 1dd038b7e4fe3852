//! The runs of states, by the index of the state. The newest states all keep their runs, and one in `INTERVAL` or more of the older states
//! keeps its run. The functions in `again` make dropped runs again.

ghost use Rattle.std.specs.Prelude.{ℕ, IfSome, OnOk};
ghost use Rattle.wb_machine.specs.Seen.{Seen};
ghost use Rattle.wb_states.specs.States.{AreOf, AreOfOr, IsKept};

use std::alloc::{AllocError, Global};
use std::collections::HashMap;
use wb_basics::memory::NoMemory;
use wb_machine::{Heap, Machine};

/// About how many bytes the runs of the newest states may take.
const ROOM: u64 = 4 << 20;

/// About how many bytes a run takes besides its heap. The run keeps no trace.
const OWN_BYTES: u64 = 8192;

/// One of this many older states keeps its run. The number grows by one for each `BYTES_A_STATE` bytes that a run takes. So the way from
/// the kept run to any of these states takes no more time than copying a run.
const INTERVAL: u64 = 32;

const BYTES_A_STATE: u64 = 2048;

/// The runs of states.
pub(crate) struct Runs<'a> {
    /// The runs that are kept, by the indexes of their states.
    pub machines: HashMap<usize, Machine<'a>>,
    /// How many states there are.
    pub states: usize,
    /// The index of the first of the newest states. The states before it are the older states.
    pub newest: usize,
    /// About how many bytes the runs of the newest states take.
    pub bytes: u64,
    /// The index of the older state whose run was made again last.
    pub revisited: usize,
    /// The memory of a run that was dropped or is over, for the next copy.
    pub spare: Option<Heap>,
}

/// This `drop` is written by hand, so that only this function goes over the fields. In a proof about a function that drops a `Runs`, the
/// drop is then a single call.
impl Drop for Runs<'_> {
    fn drop(self) {
        let Runs {
            machines: _,
            states: _,
            newest: _,
            bytes: _,
            revisited: _,
            spare: _,
        } = self;
    }
}

/// About how many bytes a run takes.
fn bytes_of(machine: &Machine) -> u64 {
    OWN_BYTES + u64::from(machine.committed())
}

/// Whether the state at the index `at` keeps its run permanently, however many newer states there are. The run takes `bytes` bytes. The
/// first state always keeps its run.
fn stays(at: usize, bytes: u64) -> bool {
    at as u64 % (INTERVAL + bytes / BYTES_A_STATE) == 0
}

impl<'a> Runs<'a> {
    /// The runs of no states.
    pub fn new(alloc: Global) -> Runs<'a>
        ensures { (i : ℕ) (m : Seen) → IsKept result i m → ⊥ }
    {
        Runs {
            machines: HashMap::new(alloc),
            states: 0,
            newest: 0,
            bytes: 0,
            revisited: 0,
            spare: None,
        }
    }

    /// The run of the state at an index; `None` if it was dropped.
    pub fn get(&self, at: usize) -> Option<&Machine<'a>>
        ensures { IfSome result (λ machine. IsKept self.now at machine.now) }
    {
        self.machines.get(&at)
    }

    /// Drops the run of the state at an index. The run's memory becomes spare.
    fn forget(&mut self, at: usize)
        ensures { AreOf self.old self.new }
    {
        if let Some(machine) = self.machines.remove(&at) {
            self.spare = Some(machine.into_heap());
        }
    }

    /// Moves the oldest of the newest states to the older states, and drops the state's run unless `stays` returns `true` for the state.
    fn age(&mut self)
        ensures { AreOf self.old self.new }
    {
        let at = self.newest;
        self.newest = at.saturating_add(1);
        let Some(machine) = self.machines.get(&at) else {
            return;
        };
        let bytes = bytes_of(machine);
        self.bytes = self.bytes.saturating_sub(bytes);
        if !stays(at, bytes) {
            self.forget(at);
        }
    }

    /// Moves states to the older states with `age`, until the runs of the newest states fit into `ROOM` bytes. The very newest state is
    /// never moved.
    fn make_room(&mut self)
        ensures { AreOf self.old self.new }
    {
        for _ in self.newest..self.states.saturating_sub(1) {
            if self.bytes <= ROOM {
                return;
            }
            self.age();
        }
    }

    /// Adds a run of the state at an index.
    fn insert(&mut self, at: usize, machine: Machine<'a>) -> Result<(), NoMemory>
        ensures { OnOk result (AreOfOr self.old at machine.entry self.new) }
    {
        if self.machines.insert(at, machine).is_err() {
            return Err(NoMemory::from(AllocError));
        }
        Ok(())
    }

    /// Adds the run of a new state, whose index is greater than all indexes before. Adding the run may drop runs of other states.
    pub fn push(&mut self, at: usize, machine: Machine<'a>) -> Result<(), NoMemory>
        ensures { OnOk result (AreOfOr self.old at machine.entry self.new) }
    {
        let bytes = bytes_of(&machine);
        self.insert(at, machine)?;
        self.states = at.saturating_add(1);
        self.bytes = self.bytes.saturating_add(bytes);
        self.make_room();
        Ok(())
    }

    /// Drops the run of the older state that was made again last, unless `stays` returns `true` for the state.
    fn forget_revisited(&mut self)
        ensures { AreOf self.old self.new }
    {
        let at = self.revisited;
        let Some(machine) = self.machines.get(&at) else {
            return;
        };
        if at < self.newest && !stays(at, bytes_of(machine)) {
            self.forget(at);
        }
    }

    /// Adds the run of an older state that was made again, in place of the run that was made again before it.
    pub fn put_back(&mut self, at: usize, machine: Machine<'a>) -> Result<(), NoMemory>
        ensures { OnOk result (AreOfOr self.old at machine.entry self.new) }
    {
        self.forget_revisited();
        self.revisited = at;
        self.insert(at, machine)
    }
}
