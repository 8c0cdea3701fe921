//! Lists, maps and counts as the contracts of every crate above see them.
//!
//! A clause sees a [`list_of::ListOf`] as the list of its elements, and a
//! [`number_map::NumberMap`] as a finite map in the order of its keys. So a struct of plain data
//! whose fields have these types is, in a contract, a record of lists and maps, and no second
//! record is written for it. [`duplicate::Duplicate`] copies such a struct whole.
//!
//! `specs/Faults.antt` has the words on counts of faults: a count rose, and a result has a fault only where
//! it rose. `specs/Limits.antt` says how much there is at most, and `specs/Numbers.antt` names numbers of one
//! kind, for all definitions above. `proofs/` has the laws of finite maps that the crates above cite, and how
//! an ordered map of another key type is seen as a finite map.
//!
//! `specs/Seen.antt` says what it is for two maps under different keys to stand for each other
//! (`SeenBy`), through ways between their keys that lead back. `proofs/Seen.antt` has what a change
//! at one pair of keys, and more or fewer pairs, keep of it, `proofs/SeenLengths.antt` that both
//! have as many entries, and `proofs/Ways.antt` ways made of others.
//!
//! Proved: each method does what the word of its name does on the list or the map, a copy equals
//! its source, and a failed allocation leaves the value as it was. Not proved: how long a call
//! takes, and how much memory. Nothing here restates a standard.
#![tactic(auto)]

pub mod duplicate;
pub mod list_of;
pub mod number_map;
