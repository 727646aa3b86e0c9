//! Trials of `command_line` and of `script_runs`, by their public calls: what words ask for, what
//! failures are told, and scripts whose memory is refused. What scripts print is tried by
//! `trials_scripts`. Nothing stands on this crate, so the crates below it are proved once.
#![tactic(auto)]

#[cfg(test)]
mod demo_tests;
#[cfg(test)]
mod devices;
#[cfg(test)]
mod refused_tests;
#[cfg(test)]
mod rows;
#[cfg(test)]
mod serve_tests;
#[cfg(test)]
mod setting_tests;
#[cfg(test)]
mod tests;
#[cfg(test)]
mod wrong_tests;
