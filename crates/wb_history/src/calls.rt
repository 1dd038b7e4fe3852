//! Which bodies run, and at which line each of them is; and call paths: the lines from `main` down to where something happened.

use crate::statements::NULL;
use std::alloc::{AllocError, Global};
use wb_basics::limits::MOST_FRAMES;
use wb_heap_model::heap::Ptr;
use wb_tree::script::Statement;

/// The most calls that are kept. Whatever happens inside a further call has a line, but no call path.
const MOST_CALLS: usize = 100_000;

/// A body that runs, or the last body that ran at this depth.
#[derive(Clone, Copy)]
struct Frame<'a> {
    stay: Stay,
    statement: Option<&'a Statement>,
    /// What the target of the last `callto` at this depth named before that call.
    replaced: Ptr,
    /// The step in which the body began.
    since: u32,
    /// The call path to the line `stay.last`, if `known` says that this frame has its path.
    path: u32,
}

/// How many items were on the cleanup stack while a body ran.
#[derive(Clone, Copy, Debug, PartialEq, Eq)]
pub struct Stay {
    /// The line that was begun last in the body; 0 if no line was.
    pub last: u32,
    /// How many items there were when the body began, the most when one of its lines began, and how many when the body ended.
    pub began: usize,
    pub most: usize,
    pub ended: usize,
}

/// The last line of a call path, and the path that leads to that line.
#[derive(Clone, Copy)]
struct Call {
    before: u32,
    line: u32,
}

/// The bodies that run, and the call paths of all that happened.
pub struct Calls<'a> {
    /// The frames, indexed by depth; `main` has the depth 1.
    frames: Vec<Frame<'a>>,
    /// How many bodies ran when the last statement began.
    depth: u32,
    /// The calls. A call path is the index of its last call in this list; the index 0 is the empty path.
    calls: Vec<Call>,
    /// For each line, the newest path that ends with this line.
    newest: Vec<u32>,
    /// How many of the bodies, counted from `main`, have their call paths in their frames. Frames get paths only when no more calls can be
    /// kept: until then a path is looked up anew each time.
    known: u32,
}

/// Written by hand, so that dropping such a value is a single call in a proof. Only this function goes over
/// the fields.
impl Drop for Calls<'_> {
    fn drop(self) {
        let Calls {
            frames: _,
            depth: _,
            calls: _,
            newest: _,
            known: _,
        } = self;
    }
}

impl<'a> Calls<'a> {
    /// No body runs yet. The only error is that memory ran out.
    pub fn new(alloc: Global) -> Result<Calls<'a>, AllocError> {
        let mut calls = Vec::new(alloc);
        calls.push(Call { before: 0, line: 0 })?;
        Ok(Calls {
            frames: Vec::new(alloc),
            depth: 0,
            calls,
            newest: Vec::new(alloc),
            known: 0,
        })
    }

    /// A statement begins in the step `step`, while `depth` bodies run and the cleanup stack has `items` items.
    pub fn begin(
        &mut self,
        depth: u32,
        line: u32,
        statement: Option<&'a Statement>,
        step: u32,
        items: usize,
    ) -> Result<(), AllocError> {
        if self.frames.len() <= depth as usize {
            let nothing = Frame {
                stay: Stay {
                    last: 0,
                    began: 0,
                    most: 0,
                    ended: 0,
                },
                statement: None,
                replaced: NULL,
                since: 0,
                path: 0,
            };
            self.frames
                .resize((depth as usize).saturating_add(1), nothing)?;
        }
        if let Some(frame) = self.frames.get_mut(depth as usize) {
            frame.stay.last = line;
            frame.statement = statement;
            if depth > self.depth {
                frame.since = step;
                frame.stay.began = items;
                frame.stay.most = items;
            }
            frame.stay.most = frame.stay.most.max(items);
        }
        for above in depth.saturating_add(1)..=self.depth {
            if let Some(frame) = self.frames.get_mut(above as usize) {
                frame.stay.ended = items;
            }
        }
        self.depth = depth;
        self.known = self.known.min(depth.saturating_sub(1));
        Ok(())
    }

    /// Returns how many bodies ran when the last statement began.
    pub fn depth(&self) -> u32 {
        self.depth
    }

    /// A `callto` begins, while `depth` bodies run. The call's target still names `names`.
    pub fn replace(&mut self, depth: u32, names: Ptr) {
        if let Some(frame) = self.frames.get_mut(depth as usize) {
            frame.replaced = names;
        }
    }

    /// Returns what the target of the last `callto` at this depth named before the call; null if there was no `callto`.
    pub fn replaced_at(&self, depth: u32) -> Ptr {
        match self.frames.get(depth as usize) {
            Some(frame) => frame.replaced,
            None => NULL,
        }
    }

    /// Returns the line that was begun last at this depth; 0 if no line was. The depth of `main` is 1.
    pub fn line_at(&self, depth: u32) -> u32 {
        match self.frames.get(depth as usize) {
            Some(frame) => frame.stay.last,
            None => 0,
        }
    }

    /// Returns the line that was begun last by the body that ran at this depth in this step; 0 if another body has begun at this depth
    /// since then.
    pub fn last_line_of(&self, depth: u32, step: u32) -> u32 {
        match self.frames.get(depth as usize) {
            Some(frame) if frame.since <= step => frame.stay.last,
            _ => 0,
        }
    }

    /// Returns the `Stay` of the body that ran last at this depth; `None` if no body ran there.
    pub fn stay_at(&self, depth: u32) -> Option<Stay> {
        Some(self.frames.get(depth as usize)?.stay)
    }

    /// Looks at the body that ran at this depth in this step, then at its callers. Returns the first that has ended with more items than it
    /// began with, and returned no pointer. `None` if there is none, or if other bodies have begun at these depths since.
    pub fn left_by(&self, depth: u32, step: u32) -> Option<Stay> {
        let mut at = depth;
        for _ in self.depth..depth {
            if let Some(frame) = self.frames.get(at as usize)
                && frame.stay.began < frame.stay.ended
                && frame.since <= step
                && !matches!(frame.statement, Some(Statement::ReturnPointer(_)))
            {
                return Some(frame.stay);
            }
            at = at.saturating_sub(1);
        }
        None
    }

    /// Returns the `Stay` of the body that ran last at this depth, if this body began after this step and has ended with as many items as
    /// at its start; `None` otherwise.
    pub fn left_none_at(&self, depth: u32, step: u32) -> Option<Stay> {
        let frame = self.frames.get(depth as usize)?;
        let stay = frame.stay;
        if stay.began == stay.ended && step < frame.since && self.depth < depth {
            Some(stay)
        } else {
            None
        }
    }

    /// Returns the statement that was begun last at this depth; `None` if no statement was.
    pub fn statement_at(&self, depth: u32) -> Option<&'a Statement> {
        self.frames.get(depth as usize)?.statement
    }

    /// Returns the call path to the line that was begun last at this depth. The only error is that memory ran out.
    pub fn path(&mut self, depth: u32) -> Result<u32, AllocError> {
        let is_full = self.calls.len() >= MOST_CALLS;
        let from = if is_full { self.known.min(depth) } else { 0 };
        let mut path = self.known_path(from);
        for at in from.saturating_add(1)..=depth.min(MOST_FRAMES) {
            path = self.longer(path, self.line_at(at))?;
            if is_full {
                self.know(at, path);
            }
        }
        Ok(path)
    }

    /// Returns the path `before`, extended by the line that was begun last at each depth from `from` to `to`. The only error is that memory
    /// ran out.
    pub fn path_on(&mut self, before: u32, from: u32, to: u32) -> Result<u32, AllocError> {
        let mut path = before;
        for at in from..=to.min(MOST_FRAMES) {
            path = self.longer(path, self.line_at(at))?;
        }
        Ok(path)
    }

    /// The call path that the frame at this depth has; the empty path if the depth is 0.
    fn known_path(&self, depth: u32) -> u32 {
        match self.frames.get(depth as usize) {
            Some(frame) if depth > 0 => frame.path,
            _ => 0,
        }
    }

    /// Keeps a call path in the frame at this depth. The callers' frames have their paths already.
    fn know(&mut self, depth: u32, path: u32) {
        if let Some(frame) = self.frames.get_mut(depth as usize) {
            frame.path = path;
            self.known = depth;
        }
    }

    /// Returns the lines of a call path, from `main` on. The only error is that memory ran out.
    pub fn lines_of(&self, path: u32) -> Result<Vec<u32>, AllocError> {
        let mut lines = Vec::new(*self.calls.allocator());
        let mut at = path;
        for _ in 0..MOST_FRAMES {
            let Some(call) = self.calls.get(at as usize) else {
                break;
            };
            if at == 0 {
                break;
            }
            lines.push(call.line)?;
            at = call.before;
        }
        lines.reverse();
        Ok(lines)
    }

    /// The path `before` with one more line; the empty path if this needs a new call and no more calls can be kept.
    fn longer(&mut self, before: u32, line: u32) -> Result<u32, AllocError> {
        let known = self.newest.get(line as usize).copied().unwrap_or(0);
        if let Some(call) = self.calls.get(known as usize)
            && known != 0
            && call.before == before
        {
            return Ok(known);
        }
        let at = self.calls.len();
        if at >= MOST_CALLS {
            return Ok(0);
        }
        self.calls.push(Call { before, line })?;
        if self.newest.len() <= line as usize {
            self.newest.resize((line as usize).saturating_add(1), 0)?;
        }
        let path = u32::try_from(at).unwrap_or(0);
        if let Some(newest) = self.newest.get_mut(line as usize) {
            *newest = path;
        }
        Ok(path)
    }
}
