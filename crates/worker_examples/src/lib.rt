// Worked examples of what threads share: boards, inboxes and ranks driven by workers, in one thread and in several.
// Tests alone, over the public functions of claim_board, let_inbox, all_to_all and rank_workers.
#![tactic(auto)]

#[cfg(test)]
mod desks;
#[cfg(test)]
mod tests;
