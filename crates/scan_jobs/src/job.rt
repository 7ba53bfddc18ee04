//! What a backend is asked to list, and what it answers.
ghost use Rattle.std.specs.Prelude.{◌≡◌, []};
ghost use Rattle.heap_scan.specs.Sums.{no_sums};

use heap_scan::PageSums;
use std::alloc::Global;

/// How a job ended.
#[derive(Clone, Copy, Debug, PartialEq, Eq)]
pub enum Ending {
    /// All its pages were listed.
    Pages,
    /// The page of this block is not valid; the pages before it were listed.
    Invalid(u32),
    /// This block could not be read; the pages before it were listed.
    Unread(u32),
    /// The relation has no such block; the pages before it were listed.
    PastEnd(u32),
    /// There was no memory for a page's text or its warning; the pages before it were listed. In a
    /// run also: an earlier job of its stream ended early, or there was no memory for the shares.
    NoMemory,
}

/// Some blocks of a relation, with the text of their pages, the warnings and the sums over them.
#[derive(Drop)]
pub struct Job {
    pub relation: u32,
    pub first: u32,
    /// How many blocks, 1 to 64; 0 in a job that asks for none.
    pub count: u32,
    /// The text of the pages, in their order.
    pub text: Vec<u8>,
    /// The warnings of those of them that were invalid and are given as zeros, in the same order.
    pub warnings: Vec<u8>,
    /// The sums over the pages of the text.
    pub tally: PageSums,
    pub ending: Ending,
}

impl Job {
    /// A job that asks for no blocks yet. It takes no memory.
    pub fn new(alloc: Global) -> Job
        ensures count { result.count ≡ 0 }
        ensures text { result.text.items ≡ [] }
        ensures warnings { result.warnings.items ≡ [] }
        ensures tally { result.tally ≡ no_sums }
        ensures ending { result.ending ≡ Ending.Pages }
    {
        Job {
            relation: 0,
            first: 0,
            count: 0,
            text: Vec::new(alloc),
            warnings: Vec::new(alloc),
            tally: PageSums::default(),
            ending: Ending::Pages,
        }
    }

    /// Asks for these blocks. Text and warnings are empty then, and keep their memory; the sums are
    /// 0.
    pub fn ask(&mut self, relation: u32, first: u32, count: u32)
        ensures blocks { (self.new.relation ≡ relation) × (self.new.first ≡ first)
            × (self.new.count ≡ count) }
        ensures text { self.new.text.items ≡ [] }
        ensures warnings { self.new.warnings.items ≡ [] }
        ensures tally { self.new.tally ≡ no_sums }
        ensures ending { self.new.ending ≡ Ending.Pages }
    {
        self.relation = relation;
        self.first = first;
        self.count = count;
        self.text.clear();
        self.warnings.clear();
        self.tally = PageSums::default();
        self.ending = Ending::Pages;
    }
}
