//! Blocks of a table's text, each read in a thread of its own, while more of the source is moved.

ghost use Rattle.std.specs.Prelude.{◌≡◌, IfErr, IfOk};
ghost use Rattle.gb_text.specs.Job.{HasRead, IsReadable};

use crate::table::builder::ColumnBuilder;
use crate::table::lines::read_lines;
use std::alloc::{AllocError, Global};
use std::snapshot::Snapshot;
use std::thread::{Promise, PromisedHandle, Threads, spawn_with};

/// A text of which the lines up to a place are to be read, with the columns that they are read into.
#[derive(Drop)]
pub struct Block {
    pub text: Vec<u8>,
    pub place: usize,
    /// Whether the text is known to be ASCII.
    pub ascii: bool,
    /// With no slots.
    pub columns: Vec<ColumnBuilder>,
    pub null_word: String,
}

/// The text of a block, and the columns of its lines. None where some line is not plain, does not read, or
/// does not end at the place.
#[derive(Drop)]
pub struct Done {
    pub text: Vec<u8>,
    pub place: usize,
    pub found: Result<Option<Vec<ColumnBuilder>>, AllocError>,
}

/// That the block is read.
#[derive(Drop)]
pub struct Reads {
    pub block: Snapshot<Block>,
}

impl Promise<Done> for Reads {
    ghost use Rattle.gb_text.specs.Job.{HasRead};

    ghost kept_by = { λ reads done. HasRead reads.block.value done };
}

/// A block that a thread reads.
#[derive(Drop)]
pub struct Job {
    pub handle: PromisedHandle<Done, Reads>,
}

// Reads a block.
fn read_block(alloc: Global, block: Block) -> Done
    requires { IsReadable block }
    ensures { HasRead block result }
{
    let Block {
        text,
        place,
        ascii,
        columns,
        null_word,
    } = block;
    let found = read_lines(alloc, columns, &text, 0, place, ascii, &null_word);
    Done { text, place, found }
}

impl Job {
    ghost use Rattle.std.specs.Prelude.{◌≡◌, IfErr, IfOk};
    ghost use Rattle.gb_text.specs.Job.{HasRead, IsReadable};

    /// Starts a thread that reads a block. Where none can be started the block is read here.
    pub fn start<R: Threads>(rt: &R, alloc: Global, block: Block) -> Result<Job, Done>
        requires { IsReadable block }
        ensures ok { IfOk result (λ job. job.handle.promise.block.value ≡ block) }
        ensures err { IfErr result (HasRead block) }
    {
        let promise = Reads {
            block: Snapshot::of(&block),
        };
        match spawn_with(rt, promise, move || read_block(alloc, block)) {
            Ok(handle) => Ok(Job { handle }),
            Err(refused) => Err((refused.value)()),
        }
    }

    /// Waits until the block is read.
    pub fn join<R: Threads>(self, rt: &R) -> Done
        ensures { HasRead self.handle.promise.block.value result }
    {
        self.handle.join(rt)
    }
}
