// A code over a field, lent. No law is asked of the field, and no rule of the values.
use crate::code::CodeRef;

/// A code over a field, lent. No law is asked of the field, and no rule of the values.
#[derive_where(Clone, Copy)]
pub struct CodeOver<'a, F> {
    /// The field, of which nothing is asked.
    pub field: &'a F,
    /// The plain values of the code.
    pub code: CodeRef<'a>,
}
