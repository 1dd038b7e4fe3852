//! The columns of a picture, and how many steps each column covers.

/// The columns that cover all steps of a run, or only its last steps.
#[derive(Clone, Copy)]
pub struct Columns {
    /// The first step of the first column.
    pub first: u32,
    pub count: u32,
    /// How many steps each column covers, at least 1.
    pub steps: u32,
}

impl Columns {
    /// The columns from the step `first` to the step `last`, at most `most` columns.
    pub fn between(first: u32, last: u32, most: u32) -> Columns {
        let after = last.saturating_sub(first);
        let all = after.saturating_add(1);
        let steps = all.div_ceil(most.max(1)).max(1);
        Columns {
            first,
            count: (after / steps).saturating_add(1),
            steps,
        }
    }

    /// The column of a step. For a step before all columns, the result is the first column; for a step after all columns, the last column.
    pub fn column(&self, step: u32) -> u32 {
        let after = step.saturating_sub(self.first);
        let column = after.checked_div(self.steps).unwrap_or(0);
        column.min(self.count.saturating_sub(1))
    }

    /// The first step of a column.
    pub fn first_step(&self, column: u32) -> u32 {
        column.saturating_mul(self.steps).saturating_add(self.first)
    }
}
