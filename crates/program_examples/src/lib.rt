// The program and its stores by worked examples that are no texts: many particles, calls that fail in turn, threads and
// real files. Tests alone, over the public function that the program calls and those of pf_io.
#![tactic(auto)]

#[cfg(test)]
mod tests;
