// Tests of `automaton`: word lists, tables and looks.
#![tactic(auto)]

#[cfg(test)]
mod tests;
