//! Laws of heaps that choose the places of cells in any way. If a run neither leaks, panics nor is cut in a heap that moves each growing
//! cell, it doesn't leak, panic or get cut wherever cells lie.
#![tactic(auto)]

pub mod placing_laws;
