//! Laws that every search has an answer: each sweep over failures or sets of failures, over a part or over all, and each search among the
//! lengths of the heap. So when a report states an answer, this answer exists.
#![tactic(auto)]

pub mod answer_laws;
