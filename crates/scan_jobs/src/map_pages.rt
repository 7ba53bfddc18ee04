//! Takes the pages of a visibility map.

use crate::consumer::Consumer;
use crate::job::Ending;
use heap_scan::warning_text;
use stream_answer::Next;
use vis_map::VisMap;

/// A map that takes its pages, and their warnings.
#[derive(Drop)]
pub struct MapPages<'m> {
    pub map: &'m mut VisMap,
    pub warnings: &'m mut Vec<u8>,
}

impl Consumer for MapPages<'_> {
    ghost use Rattle.scan_jobs.specs.ConsumedPages.{MapHasPages};
    ghost use Rattle.std.specs.Prelude.{ℕ};

    ghost holds = { λ m pages. MapHasPages m.map.now m.warnings.now.items pages };

    ghost most = { λ m. (m.map.now).pages };

    // Which map and which warnings are on loan, and how many pages the map can have.
    ghost Kept = { ℕ × ℕ × ℕ };

    ghost kept = { λ m. (m.map.ghost_name, m.warnings.ghost_name, (m.map.now).pages) };

    fn take(&mut self, relation: u32, answer: Next<'_, ()>) -> Option<Ending> {
        match answer {
            Next::Page(page, _, _) => {
                self.map.add(page);
                None
            }
            Next::Damaged(page, _, _) => {
                self.map.add(page);
                None
            }
            Next::Zeroed(page, block, _) => {
                match warning_text(relation, block, self.warnings) {
                    Ok(()) => {
                        self.map.add(page);
                        None
                    }
                    Err(_) => Some(Ending::NoMemory),
                }
            }
            Next::End => Some(Ending::Pages),
            Next::Invalid(block) => Some(Ending::Invalid(block)),
            Next::Unread(block) => Some(Ending::Unread(block)),
            Next::PastEnd(block) => Some(Ending::PastEnd(block)),
        }
    }
}
