//! Trials of `demo_origin` by its public calls alone.
//!
//! What a contract says is proved for every input, and isn't tried here. Tried are datagrams worked
//! out by hand for counters and a cell, and that each call can succeed. A trial is a table of
//! steps, which a call goes through that answers a number: its proof says nothing of the steps.
#![tactic(auto)]

#[cfg(test)]
mod devices;
#[cfg(test)]
mod exchanges;
#[cfg(test)]
mod observers;
#[cfg(test)]
mod pieces;
#[cfg(test)]
mod refusals;
#[cfg(test)]
mod steps;
#[cfg(test)]
mod tags;
