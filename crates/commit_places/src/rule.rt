//! The rule of the places, and what each of their steps tells.

use crate::view::{Sizes, View};
use atomic_table::{Join, Play, Split, TableRule};
use commit_desk::PieceSpec;
use std::marker::PhantomData;

// The rule. It names the pieces that are right.
pub(crate) struct PlacesRule<T: PieceSpec> {
    task: PhantomData<T>,
}

impl<T: PieceSpec> TableRule<Option<T::Piece>, View, Sizes> for PlacesRule<T> {
    ghost use Rattle.commit_places.specs.Rule.{Kept};
    ghost use Rattle.commit_places.specs.Steps.{first_committer};
    ghost use Rattle.commit_places.specs.declared.view.View.TheVariants.{Committer};

    ghost holds = { λ sizes s. Kept T.right sizes s };

    ghost first = { λ sizes. Committer (first_committer sizes) };
}

// The committer splits a hand.
pub(crate) struct Splitting;

impl Split<View> for Splitting {
    ghost use Rattle.commit_places.specs.Steps.{on_committer, committer_splitting, new_hand, sizes_of};
    ghost use Rattle.commit_places.specs.declared.view.View.TheVariants.{Hand};

    ghost left = { on_committer committer_splitting };

    ghost right = { λ view. Hand (new_hand (sizes_of view)) };
}

// A hand comes back to the committer.
pub(crate) struct Joining;

impl Join<View> for Joining {
    ghost use Rattle.commit_places.specs.Steps.{on_committer, committer_joining};
    ghost use Rattle.commit_places.specs.declared.view.View.TheVariants.{Joined};

    ghost both = { λ view hand. on_committer (committer_joining hand) view };

    ghost spent = { Joined };
}

// A draw.
pub(crate) struct Drawing;

impl<C> Play<Option<C>, View> for Drawing {
    ghost use Rattle.commit_places.specs.Steps.{Draws};

    ghost then = { Draws };
}

// A look at the count.
pub(crate) struct Looking;

impl<C> Play<Option<C>, View> for Looking {
    ghost use Rattle.commit_places.specs.Steps.{Looks};

    ghost then = { Looks };
}

// A hand takes the place of its page.
pub(crate) struct Seizing;

impl<C> Play<Option<C>, View> for Seizing {
    ghost use Rattle.commit_places.specs.Steps.{Seizes};

    ghost then = { Seizes };
}

// A hand gives the place back, with the piece in it.
pub(crate) struct Laying;

impl<C> Play<Option<C>, View> for Laying {
    ghost use Rattle.commit_places.specs.Steps.{Lays};

    ghost then = { Lays };
}

// The committer takes the place of the next page, where the piece lies there.
pub(crate) struct Taking<T: PieceSpec> {
    task: PhantomData<T>,
}

impl<T: PieceSpec> Play<Option<T::Piece>, View> for Taking<T> {
    ghost use Rattle.commit_places.specs.Steps.{Takes};

    ghost then = { Takes T.right };
}

// The committer gives the place back, empty.
pub(crate) struct Clearing;

impl<C> Play<Option<C>, View> for Clearing {
    ghost use Rattle.commit_places.specs.Steps.{Clears};

    ghost then = { Clears };
}

// The committer raises the count.
pub(crate) struct Committing;

impl<C> Play<Option<C>, View> for Committing {
    ghost use Rattle.commit_places.specs.Steps.{Commits};

    ghost then = { Commits };
}

// The committer stops the work.
pub(crate) struct Stopping;

impl<C> Play<Option<C>, View> for Stopping {
    ghost use Rattle.commit_places.specs.Steps.{Stops};

    ghost then = { Stops };
}
