//! The names of errors.

use crate::operator_names::error_name;

/// The errors of the language, in the order of their names (section 3.10 of the language manual).
#[derive(Clone, Copy, Debug, PartialEq, Eq)]
pub enum ErrorName {
    DictStackOverflow,
    DictStackUnderflow,
    ExecStackOverflow,
    InvalidAccess,
    InvalidExit,
    InvalidFont,
    InvalidRestore,
    IoError,
    LimitCheck,
    NoCurrentPoint,
    RangeCheck,
    StackOverflow,
    StackUnderflow,
    SyntaxError,
    Timeout,
    TypeCheck,
    Undefined,
    UndefinedResult,
    UnmatchedMark,
    VmError,
}

impl ErrorName {
    ghost use Rattle.std.specs.Prelude.{◌≡◌};
    ghost use Rattle.ps_names.specs.ErrorName.{bytes_of};

    /// The name, as programs and reports have it.
    pub fn as_bytes(&self) -> &'static [u8]
        ensures { result.now ≡ bytes_of self.now }
    {
        error_name(*self as usize)
    }
}
