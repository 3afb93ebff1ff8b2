#![tactic(auto)]

// Studies on examples: every refusal of the calls with its number and place, every limit from both sides, and what the
// calls leave.
#[cfg(test)]
mod calls;
#[cfg(test)]
mod checks;
#[cfg(test)]
mod samples;
