//! The promise of places. It is a function with no code: what it ensures is the law.
ghost use Rattle.atomic_table.specs.Table.{State};
ghost use Rattle.commit_places.specs.Rule.{Kept};
ghost use Rattle.commit_places.specs.Promise.{FewBusy, DrawnOnce, FinishedOnce, FinishedByDrawer, OneHandEach, NotLaidYet, BegunNear, LiesRight, OverIsOver};
ghost use Rattle.commit_places.specs.declared.view.Sizes.{Sizes};
ghost use Rattle.commit_places.specs.declared.view.View.{View};

use commit_desk::PieceSpec;

/// What is so at every moment of places, whatever their threads do. Each page was drawn by one hand, once, and finished at
/// most once, by the hand that drew it. No two hands have one page. A page that a hand has isn't committed, and its piece
/// doesn't lie in its place. A page is begun only at most `ahead` past the committed ones. A piece that lies in its place is
/// right for its page. Pages begun and pieces lying are never more than `ahead`. Where a hand drew that all pages are drawn,
/// they are.
pub fn places_promise<T: PieceSpec>()
    ensures drawn_once { (z : Sizes) (s : State _ View) → Kept T.right z s → DrawnOnce z s }
    ensures finished_once { (z : Sizes) (s : State _ View) → Kept T.right z s → FinishedOnce z s }
    ensures by_drawer { (z : Sizes) (s : State _ View) → Kept T.right z s → FinishedByDrawer z s }
    ensures one_hand { (z : Sizes) (s : State _ View) → Kept T.right z s → OneHandEach z s }
    ensures not_laid { (z : Sizes) (s : State _ View) → Kept T.right z s → NotLaidYet z s }
    ensures near { (z : Sizes) (s : State _ View) → Kept T.right z s → BegunNear z s }
    ensures right { (z : Sizes) (s : State _ View) → Kept T.right z s → LiesRight z s T.right }
    ensures few { (z : Sizes) (s : State _ View) (k : Kept T.right z s) → FewBusy z k.status }
    ensures over { (z : Sizes) (s : State _ View) → Kept T.right z s → OverIsOver z s }
{}
