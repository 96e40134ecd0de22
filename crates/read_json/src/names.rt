// Distinct names, numbered in the order in which they came.
ghost use Rattle.std.specs.Prelude.{◌≡◌, ◌<◌, ◌++◌, ◌∷◌, [], length, not, IfOk, map, string_bytes, position, slice_index_or, if◌then◌else◌};
ghost use Rattle.std.specs.Str.{bytes_eq};
ghost use Rattle.std.specs.List.{list_any};
ghost use Rattle.serde_json.specs.View.{members_view};
ghost use Rattle.read_json.specs.Fields.{keys_of};

use base_num::Memory;
use indexmap::IndexSet;
use serde_json::{Map, Value};
use std::alloc::Global;
use std::marker::Model;

/// Distinct names, numbered from 0 on in the order in which they came.
#[derive(Drop)]
pub struct Names {
    set: IndexSet<String>,
}

impl Model for Names {
    ghost use Rattle.std.specs.Prelude.{List, ℕ, map, string_bytes};

    ghost Value = { List (List ℕ) };

    ghost view = { λ n. map string_bytes n.set.keys };
}

impl Names {
    /// No names.
    pub fn new(alloc: Global) -> Names
        ensures { result ≡ [] }
    {
        Names {
            set: IndexSet::new(alloc),
        }
    }

    /// Counts the names.
    pub fn len(&self) -> usize
        ensures { result ≡ length self.now }
    {
        self.set.len()
    }

    /// The name with a number.
    pub fn name(&self, at: usize) -> &str
        requires { at < length self.now }
        ensures { result.now ≡ slice_index_or self.now at [] }
    {
        match self.set.get_index(at) {
            Some(name) => name.as_str(),
            None => unreachable!(),
        }
    }

    /// The number of a name; none where it is not there.
    pub fn position(&self, name: &str) -> Option<usize>
        ensures { result ≡ position (bytes_eq name.now) self.now }
    {
        self.set.get_index_of(name)
    }

    /// Adds a name behind the others, unless it is there, and says whether it was added. [`Memory`]
    /// where memory was refused.
    pub fn add(&mut self, alloc: Global, name: &str) -> Result<bool, Memory>
        ensures added { IfOk result (λ b. b ≡ not (list_any (bytes_eq name.now) self.old)) }
        ensures names { IfOk result (λ b. self.new ≡ (if b then self.old ++ name.now ∷ [] else self.old)) }
    {
        let Ok(text) = String::from_str(alloc, name) else {
            return Err(Memory);
        };
        insert(&mut self.set, text)
    }
}

fn insert(set: &mut IndexSet<String>, text: String) -> Result<bool, Memory>
    ensures added { IfOk result (λ b. b ≡ not (list_any (bytes_eq (string_bytes text)) (map string_bytes set.old.keys))) }
    ensures names { IfOk result (λ b. map string_bytes set.new.keys
        ≡ (if b then map string_bytes set.old.keys ++ string_bytes text ∷ [] else map string_bytes set.old.keys)) }
{
    let Ok(added) = set.insert(text) else {
        return Err(Memory);
    };
    Ok(added)
}

/// The keys of an object, numbered in their order. [`Memory`] where memory was refused.
pub fn keys(alloc: Global, members: &Map<String, Value>) -> Result<Names, Memory>
    ensures { IfOk result (λ names. names ≡ keys_of (members_view members.now.entries)) }
{
    let mut names = Names::new(alloc);
    for key in members.keys() {
        let _ = names.add(alloc, key.as_str())?;
    }
    Ok(names)
}
