//! Codes.
ghost use Rattle.std.specs.Prelude.{◌≡◌, ◌≤◌, true, false, length};
ghost use Rattle.data_filters.specs.declared.code.Code.{Code};

use filter_tower::CodeBytes;

/// The next code of a layer.
#[derive(Drop)]
pub(crate) enum Code {
    /// Gives bytes and takes so many of its source, those passed over not counted.
    Gives { bytes: CodeBytes, taken: usize },

    /// The end, which takes so many bytes of its source, those passed over not counted.
    Ends { taken: usize },

    /// The end, where the source ends: it takes all that is left of it.
    EndsWithSource,

    /// A wrong byte, or one that the source can't give.
    Wrong,
}

/// A code that was read ahead.
#[derive(Drop)]
pub(crate) struct Found {
    pub(crate) code: Code,

    /// Whether the end behind it was read too.
    pub(crate) is_cut: bool,
}

impl Found {
    ghost use Rattle.data_filters.specs.Found.{whole, cut};

    /// A code that was read up to its last byte.
    pub(crate) fn whole(code: Code) -> Found
        ensures { result ≡ whole code }
    {
        Found {
            code,
            is_cut: false,
        }
    }

    /// A code that was read up to the end behind it.
    pub(crate) fn cut(code: Code) -> Found
        ensures { result ≡ cut code }
    {
        Found { code, is_cut: true }
    }
}

/// The code of some bytes.
pub(crate) fn gives(bytes: &[u8], taken: usize) -> Code
    requires { length bytes.now ≤ 128 }
    ensures { result ≡ Code.Gives bytes.now taken }
{
    let mut code = CodeBytes::none();
    for byte in bytes {
        code.push(*byte);
    }
    Code::Gives { bytes: code, taken }
}
