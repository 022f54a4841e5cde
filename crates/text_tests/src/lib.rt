// Examples of answers to lines, each as a test.
#![tactic(auto)]

#[cfg(test)]
mod answers;
