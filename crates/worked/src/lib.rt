// Worked examples at the limits, as tests.
#![tactic(auto)]

#[cfg(test)]
mod drafting;
#[cfg(test)]
mod listing;
#[cfg(test)]
mod memory;
