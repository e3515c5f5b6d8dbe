//! A replica that follows the log: it is told of each change, and takes the entries that count, in their order.
//!
//! - [`Follower`]: a reader of the log with a replica. Over every history that its reader is told of, the blocks of the
//!   entries that count are applied once each, one after another.
//! - [`followers_agree`]: followers that were told of one history stand at one place; and [`unseen_changes_keep`].
//! - [`joined_followers_follow`]: one that began by a snapshot ([`Follower::begin_at`]) is where one is that read all.
#![tactic(auto)]

mod follower;
mod laws;

pub use follower::Follower;
pub use laws::{followers_agree, joined_followers_follow, unseen_changes_keep};
