//! Strings beside their keys, in the order in which they came.
ghost use Rattle.std.specs.Cow.{cow_str_bytes};
ghost use Rattle.std.specs.Prelude.{◌≡◌, ◌++◌, ◌∷◌, [], length, slice_get, string_bytes, Contains, IfOk, IfSome, IfNone, OnOk, OnErr};
ghost use Rattle.std.specs.Option.{option_map};
ghost use Rattle.np_node.specs.Nodes.{IsKept};
ghost use Rattle.np_node.specs.inside.Removed.{IsRemoved};
ghost use Rattle.np_node.specs.inside.Shown.{key_beside};

use crate::fields::same_bytes;
use indexmap::IndexMap;
use np_code_points::Memory;
use std::alloc::Global;
use std::borrow::CowStr;
use std::marker::Model;

/// Strings beside their keys, found by place and by string. A key that is its string, as most are, has no memory of its own.
/// Contracts see the list of entries.
#[derive(Drop)]
pub struct Entries {
    map: IndexMap<String, Option<String>>,
}

impl Model for Entries {
    ghost use Rattle.std.specs.Prelude.{List};
    ghost use Rattle.np_node.specs.Strings.{Entry};
    ghost use Rattle.np_node.specs.inside.Shown.{shown};

    ghost Value = { List Entry };

    ghost view = { λ a. shown a.map.entries };
}

/// A key, where it is another text than its string.
fn other_key(alloc: Global, string: &str, key: CowStr<'_>) -> Result<Option<String>, Memory>
    ensures { IfOk result (λ other. key_beside string.now other ≡ cow_str_bytes key.entry) }
{
    if same_bytes(key.as_str().as_bytes(), string.as_bytes()) {
        return Ok(None);
    }
    match key {
        CowStr::Owned(other) => Ok(Some(other)),
        CowStr::Borrowed(other) => Ok(Some(String::from_str(alloc, other)?)),
    }
}

/// The key beside a string.
fn key_of<'a>(string: &'a String, other: &'a Option<String>) -> &'a str
    ensures { result.now ≡ key_beside (string_bytes string.now) other.now }
{
    match other {
        Some(key) => key.as_str(),
        None => string.as_str(),
    }
}

impl Entries {
    /// No entries. It takes no memory.
    pub(crate) fn new(alloc: Global) -> Self
        ensures { result ≡ [] }
    {
        Entries {
            map: IndexMap::new(alloc),
        }
    }

    /// The allocator.
    pub(crate) fn allocator(&self) -> Global {
        *self.map.allocator()
    }

    /// How many entries there are.
    pub(crate) fn len(&self) -> usize
        ensures { result ≡ length self.now }
    {
        self.map.len()
    }

    /// The entry at a place, from 0.
    pub(crate) fn get(&self, index: usize) -> Option<(&str, &str)>
        ensures { option_map (λ p. record { string = p.0.now; key = p.1.now }) result ≡ slice_get self.now index }
    {
        let (string, other) = self.map.get_index(index)?;
        Some((string.as_str(), key_of(string, other)))
    }

    /// The key of a string.
    pub(crate) fn key_of(&self, string: &str) -> Option<&str>
        ensures some { IfSome result (λ key. Contains self.now (record { string = string.now; key = key.now })) }
        ensures none { IfNone result (¬ IsKept self.now string.now) }
    {
        match self.map.get_key_value(string) {
            Some((kept, other)) => Some(key_of(kept, other)),
            None => None,
        }
    }

    /// Puts a new string and its key behind the others.
    pub(crate) fn push(&mut self, string: &str, key: CowStr<'_>) -> Result<(), Memory>
        requires { ¬ IsKept self.old string.now }
        ensures ok { OnOk result (self.new ≡ self.old ++ (record { string = string.now; key = cow_str_bytes key.entry }) ∷ []) }
        ensures err { OnErr result (self.new ≡ self.old) }
    {
        let other = other_key(self.allocator(), string, key)?;
        let kept = String::from_str(self.allocator(), string)?;
        self.map.insert(kept, other)?;
        Ok(())
    }

    /// Takes out a string and its key, and answers whether it was there. The others keep their
    /// order.
    pub(crate) fn remove(&mut self, string: &str) -> bool
        ensures { IsRemoved self.old self.new string.now result }
    {
        self.map.shift_remove(string).is_some()
    }
}
