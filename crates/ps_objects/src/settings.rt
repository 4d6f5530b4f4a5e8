//! Settings.

/// How a job is run: dots per inch, the paper's size in pixels, and whether the job goes on after a page with an
/// error, which is then dropped.
#[derive(Clone, Copy, Debug, PartialEq, Eq)]
pub struct Settings {
    pub dpi: u32,
    pub width: u32,
    pub height: u32,
    pub keep: bool,
}
