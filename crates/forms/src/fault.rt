//! Why a line is not a form.
use numerals::NotANumber;

/// Why a line is not a form.
#[derive(Clone, Copy, PartialEq, Eq, Debug)]
pub enum NotAForm {
    /// There is something else than each form has there.
    Unexpected,
    /// There is no number where a form has one.
    NotANumber(NotANumber),
}

impl From<NotANumber> for NotAForm {
    fn from(why: NotANumber) -> NotAForm {
        NotAForm::NotANumber(why)
    }
}
