//! The names of columns.

ghost use Rattle.std.specs.Prelude.{◌≡◌, IfOk};

use crate::error::{PolarsError, PolarsResult};
use std::alloc::Global;

/// A name. Equality, order and hash are those of its bytes.
#[derive(Clone, Debug, PartialEq, Eq, PartialOrd, Ord, Hash, Drop)]
pub struct PlSmallStr {
    text: String,
}

impl PlSmallStr {
    ghost use Rattle.gb_base.specs.PlSmallStr.{name_of, IsNoMemory};
    ghost use Rattle.std.specs.Prelude.{IfErr};

    /// A copy of the text.
    pub fn from_str(alloc: Global, text: &str) -> PolarsResult<PlSmallStr>
        ensures ok { IfOk result (λ name. name_of name ≡ text.now) }
        ensures err { IfErr result IsNoMemory }
    {
        Ok(PlSmallStr {
            text: String::from_str(alloc, text)?,
        })
    }

    pub fn as_str(&self) -> &str
        ensures { result.now ≡ name_of self.now }
    {
        self.text.as_str()
    }

    /// The same text.
    pub fn try_clone(&self) -> PolarsResult<PlSmallStr>
        ensures ok { IfOk result (λ name. name_of name ≡ name_of self.now) }
        ensures err { IfErr result IsNoMemory }
    {
        Ok(PlSmallStr {
            text: self.text.clone()?,
        })
    }
}
