//! Bytes that a value owns.

ghost use Rattle.std.specs.Prelude.{◌≡◌, IfOk};

use crate::error::PolarsResult;
use std::alloc::Global;

/// A string of bytes, of any values. Equality, order and hash are those of its bytes.
#[derive(Debug, PartialEq, Eq, PartialOrd, Ord, Hash, Drop)]
pub struct ByteStr {
    bytes: Vec<u8>,
}

impl ByteStr {
    ghost use Rattle.std.specs.Prelude.{IfErr};
    ghost use Rattle.gb_base.specs.ByteStr.{bytes_of};
    ghost use Rattle.gb_base.specs.PlSmallStr.{IsNoMemory};

    /// A copy of the bytes.
    pub fn from_slice(alloc: Global, v: &[u8]) -> PolarsResult<ByteStr>
        ensures ok { IfOk result (λ bytes. bytes_of bytes ≡ v.now) }
        ensures err { IfErr result IsNoMemory }
    {
        Ok(ByteStr {
            bytes: Vec::from_slice(alloc, v)?,
        })
    }

    pub fn as_slice(&self) -> &[u8]
        ensures { result.now ≡ bytes_of self.now }
    {
        self.bytes.as_slice()
    }

    /// The same bytes.
    pub fn try_clone(&self) -> PolarsResult<ByteStr>
        ensures ok { IfOk result (λ bytes. bytes_of bytes ≡ bytes_of self.now) }
        ensures err { IfErr result IsNoMemory }
    {
        Ok(ByteStr {
            bytes: self.bytes.clone()?,
        })
    }
}
