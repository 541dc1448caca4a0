//! Names that differ, and the first of some names that stood before.

ghost use Rattle.std.specs.Prelude.{◌≡◌, ◌||◌, ℕ, List, [], map, not, option_map, IfErr, IfOk, OnOk};
ghost use Rattle.std.specs.List.{list_any};
ghost use Rattle.std.specs.Str.{bytes_eq};
ghost use Rattle.gb_defs.specs.Column.{first_repeated};
ghost use Rattle.gb_base.specs.PlSmallStr.{IsNoMemory, name_of};
ghost use Rattle.gb_base.specs.NameSet.{AreAmong};

use crate::error::PolarsResult;
use crate::small_str::PlSmallStr;
use std::alloc::{AllocError, Global};
use std::collections::BTreeSet;
use std::marker::Model;

/// Names that differ, in their order. They are not hashed, so that nobody can choose names that make it slow.
#[derive(Drop)]
pub struct NameSet<'a> {
    names: BTreeSet<&'a str>,
}

impl<'a> Model for NameSet<'a> {
    ghost use Rattle.std.specs.Prelude.{ℕ, List, map};

    ghost Value = { List (List ℕ) };

    ghost view = { λ s. map (λ name. name.now) s.names.keys };
}

impl<'a> NameSet<'a> {
    /// No names, and no memory taken.
    pub fn new(alloc: Global) -> NameSet<'a>
        ensures { result ≡ [] }
    {
        NameSet {
            names: BTreeSet::new(alloc),
        }
    }

    /// The names of a slice.
    pub fn of(alloc: Global, names: &[&'a str]) -> Result<NameSet<'a>, AllocError>
        ensures { IfOk result (AreAmong (map (λ name. name.now) names.now)) }
    {
        let mut set = NameSet::new(alloc);
        for name in names {
            set.insert(*name)?;
        }
        Ok(set)
    }

    /// Whether a name is among these. A call takes as many comparisons as `insert`.
    pub fn contains(&self, name: &str) -> bool
        ensures { result ≡ list_any (bytes_eq name.now) self.now }
    {
        self.names.contains(name)
    }

    /// One name more, and whether it is new. A call takes as many comparisons as the logarithm of the number
    /// of names.
    pub fn insert(&mut self, name: &'a str) -> Result<bool, AllocError>
        ensures new { IfOk result (λ new. new ≡ not (list_any (bytes_eq name.now) self.old)) }
        ensures names { OnOk result ((other : List ℕ) → list_any (bytes_eq other) self.new
            ≡ (bytes_eq name.now other || list_any (bytes_eq other) self.old)) }
    {
        let Ok(new) = self.names.insert(name) else {
            return Err(AllocError);
        };
        Ok(new)
    }
}

/// The first of the names that stood before.
pub fn repeated(alloc: Global, names: &[PlSmallStr]) -> PolarsResult<Option<&PlSmallStr>>
    ensures ok { let first = first_repeated (map name_of names.now) in
        IfOk result (λ name. option_map (λ n. name_of n.now) name ≡ first) }
    ensures err { IfErr result IsNoMemory }
{
    let mut seen = NameSet::new(alloc);
    for name in names {
        if !seen.insert(name.as_str())? {
            return Ok(Some(name));
        }
    }
    Ok(None)
}
