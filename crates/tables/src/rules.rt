//! The two day rules that a settling is handed.

/// The rule for ordinary days and the one for Critical Days.
#[derive(Clone, Copy)]
pub struct DayRules<'r, O, C> {
    pub ordinary: &'r O,
    pub critical: &'r C,
}
