// Worked examples of numbers, cells, moments, trees and lists: tests alone, over the public functions of
// the crates of the method.
#![tactic(auto)]

#[cfg(test)]
mod tests;
