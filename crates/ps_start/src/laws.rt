//! Laws of the start.
ghost use Rattle.ps_start.specs.Scale.{ScaleLaw};

/// The scale of the default matrix is the quotient of the resolution and 72, which is never undefined.
pub fn scale_law()
    ensures { ScaleLaw }
{}
