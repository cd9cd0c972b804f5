//! Tests of frames of any recording, on rows that a program of its own worked.
#![tactic(auto)]

#[cfg(test)]
mod layout;
#[cfg(test)]
mod making;
#[cfg(test)]
mod player;
#[cfg(test)]
mod playing;
#[cfg(test)]
mod slice;
#[cfg(test)]
mod writing;
