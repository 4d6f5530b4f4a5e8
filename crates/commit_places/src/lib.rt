//! Places for the pieces of numbered pages. Hands draw pages and lay their pieces down, and a committer takes them in order,
//! all by single steps on words, without a lock.
#![tactic(auto)]

mod answer;
mod law;
mod places;
mod rule;
mod view;

pub use answer::{Draw, Ready};
pub use law::places_promise;
pub use places::{Committer, Hand, Places};
pub use view::{CommitterView, HandView, Next, Sizes, Stage, Ticket, View};

#[cfg(test)]
mod tests;
