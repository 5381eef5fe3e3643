// The limits of the stage, and the lines of scenarios, at their edges, tested on the real calls.
#![tactic(auto)]

#[cfg(test)]
mod columns;
#[cfg(test)]
mod emissions;
#[cfg(test)]
mod groups;
#[cfg(test)]
mod lengths;
#[cfg(test)]
mod lifetimes;
#[cfg(test)]
mod lines;
#[cfg(test)]
mod stages;
#[cfg(test)]
mod states;
