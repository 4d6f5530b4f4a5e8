//! Strings that are shown.
ghost use Rattle.std.specs.Prelude.{◌≡◌, IfOk};

use crate::{Duplicate, Matrix, NoMemory, Object, Real};

/// A distance in user space or in a font's space.
#[derive(Clone, Copy, PartialEq, Eq)]
pub struct Offset {
    pub x: Real,
    pub y: Real,
}

/// A string that is shown.
#[derive(Drop)]
pub struct ShowRun {
    pub string: Object,

    /// The place of the glyph that is next or running.
    pub at: u32,
    pub form: ShowForm,
    pub phase: ShowPhase,
}

impl ShowRun {
    pub fn copy(&self) -> Result<ShowRun, NoMemory>
        ensures { IfOk result (λ run. run ≡ self.now) }
    {
        Ok(ShowRun {
            string: self.string.copy()?,
            at: self.at,
            form: self.form.copy()?,
            phase: self.phase,
        })
    }
}

impl Duplicate for ShowRun {
    fn duplicate(&self) -> Result<ShowRun, NoMemory> {
        self.copy()
    }
}

/// The operator that shows a string, with its operands.
#[derive(Drop)]
pub enum ShowForm {
    Show,

    /// `ashow` adds `each` after each glyph.
    Ashow {
        each: Offset,
    },

    /// `widthshow` adds `extra` after each glyph of the code.
    Widthshow {
        extra: Offset,
        code: i32,
    },
    Awidthshow {
        extra: Offset,
        code: i32,
        each: Offset,
    },

    /// `kshow` runs a procedure between two glyphs.
    Kshow {
        procedure: Object,
    },

    /// `stringwidth` paints nothing. `sum` is the width so far.
    Stringwidth {
        sum: Offset,
    },
}

impl ShowForm {
    pub fn copy(&self) -> Result<ShowForm, NoMemory>
        ensures { IfOk result (λ form. form ≡ self.now) }
    {
        Ok(match self {
            ShowForm::Show => ShowForm::Show,
            ShowForm::Ashow { each } => ShowForm::Ashow { each: *each },
            ShowForm::Widthshow { extra, code } => ShowForm::Widthshow {
                extra: *extra,
                code: *code,
            },
            ShowForm::Awidthshow { extra, code, each } => ShowForm::Awidthshow {
                extra: *extra,
                code: *code,
                each: *each,
            },
            ShowForm::Kshow { procedure } => ShowForm::Kshow {
                procedure: procedure.copy()?,
            },
            ShowForm::Stringwidth { sum } => ShowForm::Stringwidth { sum: *sum },
        })
    }
}

/// What a show does next.
#[derive(Clone, Copy, PartialEq, Eq)]
pub enum ShowPhase {
    /// The glyph at the place begins. While a frame stands above, the procedure of a `kshow` runs.
    Before,

    /// The procedure of the glyph at the place runs.
    Running(Glyph),

    /// The procedure of a `kshow` is called before the glyph at the place.
    Between,
}

/// A glyph whose procedure runs.
#[derive(Clone, Copy, PartialEq, Eq)]
pub struct Glyph {
    /// The number of layers on the graphics stack below the base layer that the glyph's beginning pushed.
    pub depth: usize,

    /// The count of cells and saves when the glyph began.
    pub began: u32,

    /// The font's matrix.
    pub matrix: Matrix,

    /// What `setcharwidth` or `setcachedevice` set.
    pub width: Option<Offset>,

    /// Whether `setcachedevice` was called.
    pub cached: bool,
}
