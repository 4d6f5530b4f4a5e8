//! Access.

use crate::ErrorName;

/// What a program may do with a composite object (section 3.3.2 of the language manual).
#[derive(Clone, Copy, Debug, PartialEq, Eq)]
pub enum Access {
    Unlimited,
    ReadOnly,
    ExecuteOnly,
    NoAccess,
}

impl Access {
    ghost use Rattle.std.specs.Prelude.{◌≡◌};
    ghost use Rattle.ps_objects.specs.Access.{read_right, write_right, run_right};

    /// Whether an object with this access may be read: invalidaccess.
    pub fn readable(self) -> Result<(), ErrorName>
        ensures { result ≡ read_right self }
    {
        match self {
            Access::Unlimited | Access::ReadOnly => Ok(()),
            Access::ExecuteOnly | Access::NoAccess => Err(ErrorName::InvalidAccess),
        }
    }

    /// Whether an object with this access may be written: invalidaccess.
    pub fn writable(self) -> Result<(), ErrorName>
        ensures { result ≡ write_right self }
    {
        match self {
            Access::Unlimited => Ok(()),
            Access::ReadOnly | Access::ExecuteOnly | Access::NoAccess => Err(
                ErrorName::InvalidAccess,
            ),
        }
    }

    /// Whether a procedure or an executable string with this access may be run: invalidaccess.
    pub fn runnable(self) -> Result<(), ErrorName>
        ensures { result ≡ run_right self }
    {
        match self {
            Access::Unlimited | Access::ReadOnly | Access::ExecuteOnly => Ok(()),
            Access::NoAccess => Err(ErrorName::InvalidAccess),
        }
    }
}
