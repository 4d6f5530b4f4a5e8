//! Frames.
ghost use Rattle.std.specs.Prelude.{◌≡◌, IfOk};
ghost use Rattle.ps_kinds.specs.Frames.{frames_room};

use crate::{
    Boxed, Duplicate, ErrorName, Key, Matrix, NoMemory, Object, Path, Real, Sequence, ShowRun,
    Stack, Text,
};

/// One running procedure, string, loop, `stopped`, show, image or path walk, with the objects that it keeps.
#[derive(Drop)]
pub enum Frame {
    /// A procedure, or any other executable object, which is then its own only item. `at` is the next item.
    Proc {
        body: Object,
        at: u32,
    },

    /// An executable string, with its bytes as they were when it began. `place` is where scanning goes on.
    Text {
        string: Object,
        bytes: Text,
        place: u64,
    },

    /// `next` is the variable of the next round, and none where that would leave the reals, which is past each limit.
    For {
        body: Object,
        next: Option<Real>,
        increment: Real,
        limit: Real,

        /// Whether the first value and the increment are integers.
        whole: bool,
    },
    Repeat {
        body: Object,
        left: u32,
    },
    Loop {
        body: Object,
    },

    /// `forall` over an array.
    Items {
        array: Object,
        at: u32,
        body: Object,
    },

    /// `forall` over a string.
    Bytes {
        string: Object,
        at: u32,
        body: Object,
    },

    /// `forall` over a dictionary, with all pairs that stood when it began.
    Pairs {
        pairs: Sequence<Pair>,
        at: usize,
        body: Object,
    },
    Stopped,
    Show(Boxed<ShowRun>),
    Image(Boxed<ImageRun>),
    Walk(Boxed<PathWalk>),
}

impl Frame {
    pub fn copy(&self) -> Result<Frame, NoMemory>
        ensures { IfOk result (λ frame. frame ≡ self.now) }
    {
        Ok(match self {
            Frame::Proc { body, at } => Frame::Proc {
                body: body.copy()?,
                at: *at,
            },
            Frame::Text {
                string,
                bytes,
                place,
            } => Frame::Text {
                string: string.copy()?,
                bytes: bytes.copy()?,
                place: *place,
            },
            Frame::For {
                body,
                next,
                increment,
                limit,
                whole,
            } => Frame::For {
                body: body.copy()?,
                next: *next,
                increment: *increment,
                limit: *limit,
                whole: *whole,
            },
            Frame::Repeat { body, left } => Frame::Repeat {
                body: body.copy()?,
                left: *left,
            },
            Frame::Loop { body } => Frame::Loop { body: body.copy()? },
            Frame::Items { array, at, body } => Frame::Items {
                array: array.copy()?,
                at: *at,
                body: body.copy()?,
            },
            Frame::Bytes { string, at, body } => Frame::Bytes {
                string: string.copy()?,
                at: *at,
                body: body.copy()?,
            },
            Frame::Pairs { pairs, at, body } => Frame::Pairs {
                pairs: pairs.copy()?,
                at: *at,
                body: body.copy()?,
            },
            Frame::Stopped => Frame::Stopped,
            Frame::Show(run) => Frame::Show(run.copy()?),
            Frame::Image(run) => Frame::Image(run.copy()?),
            Frame::Walk(walk) => Frame::Walk(walk.copy()?),
        })
    }
}

impl Duplicate for Frame {
    fn duplicate(&self) -> Result<Frame, NoMemory> {
        self.copy()
    }
}

/// The execution stack, the newest frame first.
pub type Frames = Stack<Frame>;

/// The most frames.
pub const FRAME_LIMIT: usize = 1000;

/// Whether `n` more frames stay within the limit: execstackoverflow.
pub fn frames_room(frames: &Frames, n: usize) -> Result<(), ErrorName>
    ensures { result ≡ frames_room n frames.now }
{
    if frames.len() <= FRAME_LIMIT && n <= FRAME_LIMIT - frames.len() {
        Ok(())
    } else {
        Err(ErrorName::ExecStackOverflow)
    }
}

/// A key and a value of a dictionary.
#[derive(Drop)]
pub struct Pair {
    pub key: Key,
    pub value: Object,
}

impl Pair {
    pub fn copy(&self) -> Result<Pair, NoMemory>
        ensures { IfOk result (λ pair. pair ≡ self.now) }
    {
        Ok(Pair {
            key: self.key.copy()?,
            value: self.value.copy()?,
        })
    }
}

impl Duplicate for Pair {
    fn duplicate(&self) -> Result<Pair, NoMemory> {
        self.copy()
    }
}

/// An image whose data comes from a procedure.
#[derive(Drop)]
pub struct ImageRun {
    pub width: u32,
    pub height: u32,

    /// Bits of a sample: 1, 2, 4, 8 or 12.
    pub bits: u32,

    /// From user space to the image.
    pub matrix: Matrix,
    pub samples: Samples,
    pub procedure: Object,

    /// The data so far.
    pub data: Text,

    /// Whether the procedure was called and its string is to be taken.
    pub called: bool,
}

impl ImageRun {
    pub fn copy(&self) -> Result<ImageRun, NoMemory>
        ensures { IfOk result (λ run. run ≡ self.now) }
    {
        Ok(ImageRun {
            width: self.width,
            height: self.height,
            bits: self.bits,
            matrix: self.matrix,
            samples: self.samples,
            procedure: self.procedure.copy()?,
            data: self.data.copy()?,
            called: self.called,
        })
    }
}

impl Duplicate for ImageRun {
    fn duplicate(&self) -> Result<ImageRun, NoMemory> {
        self.copy()
    }
}

/// What the samples of an image mean.
#[derive(Clone, Copy, PartialEq, Eq)]
pub enum Samples {
    /// `image`: grays from the first to the second.
    Gray { first: Real, second: Real },

    /// `imagemask`: the samples that paint.
    Mask { ones: bool },
}

/// A walk over a path as it stood when the walk began.
#[derive(Drop)]
pub struct PathWalk {
    pub path: Path,

    /// The next segment.
    pub at: usize,
    pub move_to: Object,
    pub line_to: Object,
    pub curve_to: Object,
    pub close_path: Object,
}

impl PathWalk {
    pub fn copy(&self) -> Result<PathWalk, NoMemory>
        ensures { IfOk result (λ walk. walk ≡ self.now) }
    {
        Ok(PathWalk {
            path: self.path.copy()?,
            at: self.at,
            move_to: self.move_to.copy()?,
            line_to: self.line_to.copy()?,
            curve_to: self.curve_to.copy()?,
            close_path: self.close_path.copy()?,
        })
    }
}

impl Duplicate for PathWalk {
    fn duplicate(&self) -> Result<PathWalk, NoMemory> {
        self.copy()
    }
}
