#![tactic(auto)]

// The two main vertical zones that the circular works through, held to the figures that it prints, and their findings.
#[cfg(test)]
mod findings;
#[cfg(test)]
mod rows;
#[cfg(test)]
mod samples;
#[cfg(test)]
mod tables;
