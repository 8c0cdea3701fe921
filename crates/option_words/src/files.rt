ghost use Rattle.std.specs.Prelude.{◌≡◌, ◌<◌, [], ◌∷◌, ◌++◌, map, length, nat_lt, IfOk};
ghost use Rattle.std.specs.List.{list_any};
ghost use Rattle.std.specs.Str.{bytes_eq};

use crate::file_name::FileName;
use std::alloc::{AllocError, Global};
use std::marker::Model;
use views::list_of::ListOf;

/// How many files a launch may name.
const MOST_FILES: usize = 64;

/// The names of files, in the order in which they were given. It takes no memory.
#[derive(Drop)]
pub struct Files<'a> {
    names: [&'a str; MOST_FILES],
    count: usize,
}

impl<'a> Model for Files<'a> {
    ghost use Rattle.std.specs.Prelude.{List, ℕ, ◌≤◌, map, take};

    ghost Value = { List (List ℕ) };

    ghost view = { λ files. map (λ name. name.now) (take files.count files.names) };

    ghost invariant = { λ files. files.count ≤ 64 };
}

impl<'a> Files<'a> {
    /// No names.
    pub fn none() -> Self
        ensures { result ≡ [] }
    {
        Files {
            names: [""; MOST_FILES],
            count: 0,
        }
    }

    /// Whether one more may be named.
    pub fn has_room(&self) -> bool
        ensures { result ≡ nat_lt (length self.now) 64 }
    {
        self.count < MOST_FILES
    }

    /// Whether this name is among them.
    pub fn contains(&self, name: &str) -> bool
        ensures { result ≡ list_any (bytes_eq name.now) self.now }
    {
        is_among(&self.names[..self.count], name)
    }

    /// Puts the name at the end.
    pub fn push(&mut self, name: &'a str)
        requires { length self.old < 64 }
        ensures { self.new ≡ self.old ++ name.now ∷ [] }
    {
        self.names[self.count] = name;
        self.count += 1;
    }

    /// Copies of the names, in their order.
    pub fn to_list(&self, alloc: Global) -> Result<ListOf<FileName>, AllocError>
        ensures { IfOk result (λ list. list ≡ self.now) }
    {
        owned(alloc, &self.names[..self.count])
    }
}

fn is_among(names: &[&str], name: &str) -> bool
    ensures { result ≡ list_any (λ other. bytes_eq name.now other.now) names.now }
{
    names.iter().any(|other| name == *other)
}

/// Copies of the names.
fn owned(alloc: Global, names: &[&str]) -> Result<ListOf<FileName>, AllocError>
    ensures { IfOk result (λ list. list ≡ map (λ name. name.now) names.now) }
{
    let mut list = ListOf::new(alloc);
    for name in names {
        list.push(FileName::from_string(String::from_str(alloc, name)?))?;
    }
    Ok(list)
}
