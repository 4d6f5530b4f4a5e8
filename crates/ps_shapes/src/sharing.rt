//! What may go to other threads.

use crate::{Clips, Paper, Path, Polygons, SpansList, Thresholds};
use copy_lists::may_be_shared;

/// Each of these, and so each of their parts, may be sent to and shared between threads.
pub fn pictures_may_be_shared(
    path: &Path,
    polygons: &Polygons,
    clips: &Clips,
    spans: &SpansList,
    thresholds: &Thresholds,
    paper: &Paper,
) {
    may_be_shared(path);
    may_be_shared(polygons);
    may_be_shared(clips);
    may_be_shared(spans);
    may_be_shared(thresholds);
    may_be_shared(paper);
}
