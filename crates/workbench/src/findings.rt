//! What a report was made of, for the code that explains or draws it. No report depends on these findings.

use crate::report_values::ReportValues;

/// What a report was made of: its values, and the bytes of the script that were read.
#[derive(Debug)]
pub struct Findings {
    /// The bytes of the script that were read.
    pub bytes: Vec<u8>,
    /// The values of the report.
    pub values: ReportValues,
}

/// This `drop` is written by hand, so that dropping a `Findings` is a single call in a proof. Only the proof of `drop` itself goes over the
/// fields.
impl Drop for Findings {
    fn drop(self) {
        let Findings {
            bytes: _,
            values: _,
        } = self;
    }
}
