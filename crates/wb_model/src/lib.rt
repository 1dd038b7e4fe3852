//! Re-exports what things mean, the plain types, the definitions and the laws, under one name. This crate defines nothing, and no crate of
//! the workbench depends on it: each crate names the crates that it needs.
#![tactic(auto)]

pub mod conditions {
    pub use wb_meaning::conditions::Conditions;
}

pub mod every_set_laws {
    pub use wb_runs::every_set_laws::{
        a_whole_part_has_every_set, nothing_shows_where_no_set_does,
        parts_of_every_set_have_one_answer,
    };
}

pub mod failures {
    pub use wb_runs::failures::{Failing, Failures};
}

pub mod fault {
    pub use wb_language::fault::ScriptFault;
}

pub mod heap {
    pub use wb_heap_model::heap::{
        Answer, Attempt, Gave, Header, Item, KERR_NO_MEMORY, Kind, Numbers, Panic, Ptr, Rule, Shape,
    };
}

pub mod items {
    pub use wb_basics::items::Items;
}

pub mod laws {
    pub use wb_runs::laws::{
        a_slot_stays_free, cells_stay_a_row, destructions_never_leave, free_runs_are,
        limits_refuse, lines_are_answered, meaning_unfolds, parts_are_read, place_is_least,
        printed_lines_are_ascii, rises_are_kept, rules_agree, settings_refuse, sweeps_end,
        traces_are_measured, unasked_rules_agree,
    };
}

pub mod length_laws {
    pub use wb_runs::length_laws::{
        ends_are_judged, heaps_agree, lengths_answer_once, tables_are_one,
    };
}

pub mod lengths {
    pub use wb_runs::lengths::{LengthRange, LengthTable};
}

pub mod limit_laws {
    pub use wb_basics::limit_laws::{option_limits_are, run_limits_are, script_limits_are};
    pub use wb_heap_model::panic_laws::{panics_are, refusal_code_is};
}

pub mod limits {
    pub use wb_basics::limits::{
        CEILING, DEEPEST_BLOCK, DEFAULT_BUDGET, DEFAULT_MINIMUM, DEFAULT_STEP, LARGEST_BUDGET,
        LARGEST_BUFFER, LARGEST_MINIMUM, LARGEST_REQUEST, LARGEST_STEP, LONGEST_LITERAL,
        LONGEST_NAME, LONGEST_PRINTED, LONGEST_SCRIPT, MOST_CLASSES, MOST_EXTRA, MOST_FIELDS,
        MOST_FRAMES, MOST_LOCALS, MOST_PARAMETERS, MOST_PROCEDURES, MOST_TURNS, MOST_UNITS,
        NINE_DIGITS, SMALLEST_STEP,
    };
}

pub mod line_laws {
    pub use wb_language::line_laws::{
        lines_are_made_of_words, lines_are_read, literals_are_read, words_are_read,
    };
}

pub mod memory {
    pub use wb_basics::memory::NoMemory;
}

pub mod number_ends {
    pub use wb_runs::number_ends::{NumberEnd, NumberEnds};
}

pub mod part {
    pub use wb_runs::part::Part;
}

pub mod part_laws {
    pub use wb_runs::part_laws::{
        a_part_has_one_answer, a_whole_part_is_all, lines_of_parts_add_up, the_first_is_the_least,
        the_least_is_of_both,
    };
}

pub mod printed_line {
    pub use wb_basics::printed_line::{Line, copy_of_lines};
}

pub mod progress {
    pub use wb_runs::progress::{Aim, Progress, Silent, StepProgress};
}

pub mod renaming_laws {
    pub use wb_runs::renaming_laws::{
        failures_lie_behind, forked_runs_are_renamed, held_numbers_were_made,
        renamed_outcomes_are_judged_alike, renamed_runs_agree, renamed_runs_follow,
    };
}

pub mod rise_laws {
    pub use wb_heap_model::rise_laws::rises_end_above_all_before;
}

pub mod run {
    pub use wb_heap_model::reported::{Leak, Leaks, Note, Notes, Trace};
    pub use wb_meaning::run::{Lines, Outcome, RisesResult, RunResult, Why};
}

pub mod run_end {
    pub use wb_runs::run_end::RunEnd;
}

pub mod script {
    pub use wb_basics::items::Chars;
    pub use wb_tree::script::{
        Argument, Body, Class, Condition, Holder, Local, Number, Operation, Parameter, Pointer,
        Procedure, Readable, Refusal, Script, Statement, StatementAt, Writable,
    };
}

pub mod script_lines {
    pub use wb_tree::script_lines::{
        BodyKind, Form, ItemKind, Keyword, LineKind, LocalKind, Operand, OperandKind, OperandPlace,
        ParameterType, Referent, Role, WordKind,
    };
}

pub mod set_laws {
    pub use wb_runs::set_laws::{refused_attempts_are_a_set, sets_end, small_sets_are_failures};
}

pub mod set_part_laws {
    pub use wb_runs::set_part_laws::{
        a_part_of_sets_has_one_answer, a_whole_part_has_all_sets,
        few_sets_are_single_failures_and_pairs, the_least_set_is_of_both,
    };
}

pub mod size {
    pub use wb_heap_model::size::{Rise, Rises, top_of_rises};
}

pub mod sweep_laws {
    pub use wb_runs::sweep_laws::{pairs_end, sweeps_answer_once};
}

pub mod text {
    pub use wb_heap_model::text::{Base, View};
}
