//! The numbers of turns that runs have taken when they come to a state. These numbers are guesses: `is_closed` checks them, and returns
//! `false` if a number is too small.

use crate::closed::turns_taken;
use crate::search::Search;
use crate::state::{Edge, State};
use std::alloc::{AllocError, Global};
use wb_basics::items::Items;
use wb_basics::memory::NoMemory;

/// How many turns a state's own run has taken.
fn own_turns(state: &State) -> u32 {
    u32::try_from(turns_taken(state)).unwrap_or(u32::MAX)
}

/// For each state, how many turns the state's own run has taken.
pub(crate) fn met_turns(alloc: Global, search: &Search) -> Result<Items<u32>, NoMemory> {
    let mut turns = Items::new(alloc);
    for state in search.states.as_slice() {
        turns.push(own_turns(state))?;
    }
    Ok(turns)
}

/// A walk along the edges. The walk goes on from a state after it has come to the state by all edges that join the state.
#[derive(Drop)]
struct Walk {
    /// For each state, the greatest number of turns with which the walk has come to the state so far.
    most: Vec<u32>,
    /// For each state, how many edges that join the state are still ahead of the walk.
    ahead: Vec<usize>,
    /// The states to which the walk has come by all edges that join them, and from which the walk hasn't gone on yet.
    ready: Vec<usize>,
}

impl Walk {
    /// A walk that hasn't begun.
    fn new(alloc: Global, search: &Search) -> Result<Walk, AllocError> {
        let mut most = Vec::new(alloc);
        let mut ahead = Vec::new(alloc);
        for state in search.states.as_slice() {
            most.push(own_turns(state))?;
            ahead.push(0)?;
        }
        Ok(Walk {
            most,
            ahead,
            ready: Vec::new(alloc),
        })
    }

    /// Counts, for each state, the edges that join it.
    fn count(&mut self, edges: &[Edge]) {
        for edge in edges {
            if let Edge::Joins { state, .. } = edge {
                if let Some(ahead) = self.ahead.get_mut(*state) {
                    *ahead = ahead.saturating_add(1);
                }
            }
        }
    }

    /// Finds the states that no edge joins.
    fn find_ready(&mut self) -> Result<(), AllocError> {
        for at in 0..self.ahead.len() {
            if self.ahead.get(at) == Some(&0) {
                self.ready.push(at)?;
            }
        }
        Ok(())
    }

    /// Comes to a state by an edge, with `turns` turns.
    fn come(&mut self, state: usize, turns: u32) -> Result<(), AllocError> {
        if let Some(most) = self.most.get_mut(state) {
            *most = turns.max(*most);
        }
        if let Some(ahead) = self.ahead.get_mut(state) {
            *ahead = ahead.saturating_sub(1);
            if *ahead == 0 {
                self.ready.push(state)?;
            }
        }
        Ok(())
    }

    /// Goes along an edge of a state, if the edge joins a further state. The state's own run has taken `own` turns, and any run that comes
    /// to the state has taken at most `most` turns.
    fn go_along(&mut self, edge: Option<&Edge>, own: u32, most: u32) -> Result<(), AllocError> {
        if let Some(Edge::Joins { state, steps }) = edge {
            let further = steps.saturating_add(1).saturating_sub(own);
            return self.come(*state, most.saturating_add(further));
        }
        Ok(())
    }

    /// Goes along the edges of a state.
    fn go_on(&mut self, search: &Search, at: usize) -> Result<(), AllocError> {
        let (Some(state), Some(most)) = (search.states.get(at), self.most.get(at).copied()) else {
            return Ok(());
        };
        self.go_along(search.granted.get(at), own_turns(state), most)?;
        self.go_along(search.failed.get(at), own_turns(state), most)
    }

    /// Goes on from each state that is ready or becomes ready.
    fn go_all(&mut self, search: &Search) -> Result<(), AllocError> {
        for _ in 0..search.states.len() {
            let Some(at) = self.ready.pop() else {
                return Ok(());
            };
            self.go_on(search, at)?;
        }
        Ok(())
    }
}

/// For each state, the greatest number of turns that a run has taken when it comes to the state. For states in a cycle of edges, and for
/// states after such a cycle, the number may be too small.
pub(crate) fn greatest_turns(alloc: Global, search: &Search) -> Result<Items<u32>, NoMemory> {
    let mut walk = Walk::new(alloc, search)?;
    walk.count(search.granted.as_slice());
    walk.count(search.failed.as_slice());
    walk.find_ready()?;
    walk.go_all(search)?;
    Ok(Items::from_vec(walk.most))
}
