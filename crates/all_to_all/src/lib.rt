// Each rank sends one parcel to each other, through inboxes: what a rank holds of the inboxes of one exchange, and
// the calls of its phases. It stands on let_inbox, and on pf_num for the want of memory.
#![tactic(auto)]

mod incoming;
mod laws;
mod opening;
mod outgoing;
mod post;
mod tokens;

pub use laws::each_other_sent_one;
pub use opening::open;
pub use post::Post;
pub use tokens::{no_tokens, tokens_for, with_tokens};
