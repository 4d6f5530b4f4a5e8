//! Laws of the desk. They are functions with no code: what they ensure is the law.
ghost use Rattle.std.specs.Prelude.{◌≡◌, ◌+◌, ◌≤◌, ℕ, List, [], ◌∷◌, ◌++◌, Some, None, IsTrue, Contains, count_by};
ghost use Rattle.commit_desk.specs.History.{is_same, claimed_count, committed_count, is_legal};
ghost use Rattle.commit_desk.specs.Desk.{state_of, piece_on, Adds, Unchanged, LaysDown, TakesAway};
ghost use Rattle.commit_desk.specs.State.{DeskState};
ghost use Rattle.commit_desk.specs.Calls.{Call, IsMadeBy, claim, finish, take, done};
ghost use Rattle.commit_desk.specs.declared.event.Event.{Event};
ghost use Rattle.commit_desk.specs.declared.event.Event.TheVariants.{Claimed, Finished, Taken, Committed};
ghost use Rattle.commit_desk.specs.declared.desk.Desk.{Desk};

/// In a legal history each page is claimed at most once, finished at most once and taken at most once, and the claimed
/// pages are never more than `ahead` past the committed ones.
pub fn each_at_most_once()
    ensures claimed { (ahead : ℕ) (history : List Event) (page : ℕ) →
        IsTrue (is_legal ahead history) → count_by (is_same (Claimed page)) history ≤ 1 }
    ensures finished { (ahead : ℕ) (history : List Event) (page : ℕ) →
        IsTrue (is_legal ahead history) → count_by (is_same (Finished page)) history ≤ 1 }
    ensures taken { (ahead : ℕ) (history : List Event) (page : ℕ) →
        IsTrue (is_legal ahead history) → count_by (is_same (Taken page)) history ≤ 1 }
    ensures near { (ahead : ℕ) (history : List Event) →
        IsTrue (is_legal ahead history) → claimed_count history ≤ committed_count history + ahead }
{}

/// What the calls of a desk ensure makes it, from a new one on, the desk that these calls made.
pub fn made_by_its_calls<C>()
    ensures new { (desk : Desk C) → (state_of desk).history ≡ [] →
        ((page : ℕ) → piece_on desk page ≡ None) → IsMadeBy [] desk }
    ensures same { (old new : Desk C) (calls : List (Call C)) →
        Unchanged old new → IsMadeBy calls old → IsMadeBy calls new }
    ensures claim { (old new : Desk C) (calls : List (Call C)) (page : ℕ) →
        Adds old new (Claimed page ∷ []) → IsMadeBy calls old →
        IsMadeBy (claim page ∷ calls) new }
    ensures finish { (old new : Desk C) (calls : List (Call C)) (page : ℕ) (piece : C) →
        LaysDown old new page piece → IsMadeBy calls old →
        IsMadeBy (finish page piece ∷ calls) new }
    ensures take { (old new : Desk C) (calls : List (Call C)) (page : ℕ) (piece : C) →
        piece_on old page ≡ Some piece → TakesAway old new page → IsMadeBy calls old →
        IsMadeBy (take page piece ∷ calls) new }
    ensures done { (old new : Desk C) (calls : List (Call C)) (count : ℕ) →
        Adds old new (Committed count ∷ []) → IsMadeBy calls old →
        IsMadeBy (done count ∷ calls) new }
{}

/// A taken piece is the one that was laid down: a call before laid this piece down for this page, and no call laid down
/// another one for it.
pub fn taken_is_laid_down<C>()
    ensures before { (desk : Desk C) (later earlier : List (Call C)) (page : ℕ) (piece : C) →
        IsMadeBy (later ++ take page piece ∷ earlier) desk → Contains earlier (finish page piece) }
    ensures no_other { (desk : Desk C) (calls : List (Call C)) (page : ℕ) (piece other : C) →
        IsMadeBy calls desk → Contains calls (finish page piece) →
        Contains calls (finish page other) → piece ≡ other }
{}
