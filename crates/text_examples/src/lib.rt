// The program's texts by examples: kernels from their tokens to pairs, decks, particle files, command lines,
// dumps, and the moves between dumps. Tests alone, which call nothing but what the crates below make public.
#![tactic(auto)]

#[cfg(test)]
mod tests;
