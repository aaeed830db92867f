// Ops L and R: labels and reserved names, a line each.
use crate::header::Case;
use byte_rules::names::{is_reserved_name, is_valid_label};
use programs::Writer;

pub fn label(case: Case<'_>, output: &mut Writer<'_>) {
    output.line(b"L", &[0, u64::from(is_valid_label(case.payload))]);
}

pub fn reserved(case: Case<'_>, output: &mut Writer<'_>) {
    output.line(b"R", &[0, u64::from(is_reserved_name(case.payload))]);
}
