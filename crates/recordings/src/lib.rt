// Tests of recordings: small loads whose schedules were worked out by hand, and refusals.
#![tactic(auto)]

#[cfg(test)]
mod refusals;
#[cfg(test)]
mod schedules;
#[cfg(test)]
mod setup;
