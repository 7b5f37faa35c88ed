// SMAC against its published vectors and values of an independent implementation.
#![tactic(auto)]

#[cfg(test)]
mod tables;
#[cfg(test)]
mod tests;
