//! The graphics state.
ghost use Rattle.std.specs.Prelude.{◌≡◌, IfOk};

use crate::{
    Clips, Component, Duplicate, Lengths, LineCap, LineJoin, LineWidth, Matrix, MiterLimit,
    NoMemory, Object, PageSide, Path, Real, Stack, Thresholds,
};

/// A colour in one of the device colour spaces (section 4.8.2 of the language manual).
#[derive(Clone, Copy, PartialEq, Eq)]
pub enum Colour {
    Gray(Component),

    /// Red, green and blue.
    Rgb(Component, Component, Component),

    /// Cyan, magenta, yellow and black.
    Cmyk(Component, Component, Component, Component),
}

/// The graphics state (section 4.2 of the language manual).
#[derive(PartialEq, Eq, Drop)]
pub struct GState {
    /// From user space to device space.
    pub ctm: Matrix,

    /// The current path, in device space.
    pub path: Path,
    pub clips: Clips,
    pub colour: Colour,
    pub width: LineWidth,
    pub cap: LineCap,
    pub join: LineJoin,
    pub miter: MiterLimit,

    /// The array that `setdash` was given.
    pub dash: Object,

    /// Where in the dash pattern a line begins.
    pub offset: Real,
    pub lengths: Lengths,

    /// Told to programs, and without effect.
    pub flat: Real,

    /// Told to programs, and without effect.
    pub adjust: bool,

    /// The frequency, the angle and the spot function of `setscreen`, told to programs and without effect.
    pub frequency: Real,
    pub angle: Real,
    pub spot: Object,

    /// What `settransfer` was given, told to programs and without effect.
    pub transfer: Object,

    /// The dictionary that `sethalftone` was given, or null.
    pub halftone: Object,
    pub thresholds: Thresholds,

    /// The font, or null.
    pub font: Object,

    /// The width and the height of the page.
    pub wide: PageSide,
    pub high: PageSide,
}

impl GState {
    pub fn copy(&self) -> Result<GState, NoMemory>
        ensures { IfOk result (λ state. state ≡ self.now) }
    {
        Ok(GState {
            ctm: self.ctm,
            path: self.path.copy()?,
            clips: self.clips.copy()?,
            colour: self.colour,
            width: self.width,
            cap: self.cap,
            join: self.join,
            miter: self.miter,
            dash: self.dash.copy()?,
            offset: self.offset,
            lengths: self.lengths.copy()?,
            flat: self.flat,
            adjust: self.adjust,
            frequency: self.frequency,
            angle: self.angle,
            spot: self.spot.copy()?,
            transfer: self.transfer.copy()?,
            halftone: self.halftone.copy()?,
            thresholds: self.thresholds.copy()?,
            font: self.font.copy()?,
            wide: self.wide,
            high: self.high,
        })
    }
}

/// A graphics state on the graphics stack. A base layer is what `save` or a glyph's beginning pushed.
#[derive(PartialEq, Eq, Drop)]
pub struct Layer {
    pub state: GState,
    pub base: bool,
}

impl Layer {
    pub fn copy(&self) -> Result<Layer, NoMemory>
        ensures { IfOk result (λ layer. layer ≡ self.now) }
    {
        Ok(Layer {
            state: self.state.copy()?,
            base: self.base,
        })
    }
}

impl Duplicate for Layer {
    fn duplicate(&self) -> Result<Layer, NoMemory> {
        self.copy()
    }
}

/// The graphics stack, the newest layer first.
pub type GStack = Stack<Layer>;
