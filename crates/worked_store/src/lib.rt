//! Worked calls of folders: what crashes leave of a file of a folder in memory, and the files of folders of
//! the host; and of the store of sets over them: which set counts, what crashes and failed calls leave, and
//! runs of several sets.
//!
//! Each test is named by what it shows. Nothing is proved here but that the tests are safe and end.
#![tactic(auto)]

#[cfg(test)]
mod asserts;
#[cfg(test)]
mod crashes;
#[cfg(test)]
mod damaged_sets;
#[cfg(test)]
mod folders;
#[cfg(test)]
mod host_folders;
#[cfg(test)]
mod runs;
