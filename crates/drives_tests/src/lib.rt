// Examples of geometries, drives, trips and listings, each as a test.
#![tactic(auto)]

#[cfg(test)]
mod drive_examples;
#[cfg(test)]
mod limits;
