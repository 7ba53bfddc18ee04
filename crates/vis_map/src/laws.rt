//! Laws on the blocks that a scan by the map asks for, each the contract of a function that does
//! nothing.
ghost use Rattle.std.specs.Prelude.{◌≡◌, ℕ, List, [], map};
ghost use Rattle.std.specs.List.{concat};
ghost use Rattle.page_check.specs.SynchronousAnswer.{Entry};
ghost use Rattle.vis_map.specs.declared.map.Skip.{Skip};
ghost use Rattle.vis_map.specs.MapRequest.{unmarked_blocks, unmarked_entries};

/// The kept blocks of a list that is cut into parts are those of its parts, one after the other: so
/// jobs may be filtered each by itself.
pub fn unmarked_part_by_part()
    ensures { (pages : List (List ℕ)) (skip : Skip) (parts : List (List ℕ))
        → unmarked_blocks pages skip (concat parts)
        ≡ concat (map (unmarked_blocks pages skip) parts) }
{}

/// A map without pages marks no block.
pub fn nothing_is_skipped_without_pages()
    ensures { (skip : Skip) (blocks : List ℕ) → unmarked_blocks [] skip blocks ≡ blocks }
{}

/// The entries that are kept of a request list are those of the blocks that are kept.
pub fn unmarked_entries_have_the_unmarked_blocks<P: Copy>()
    ensures { (pages : List (List ℕ)) (skip : Skip) (entries : List (Entry P))
        → map (λ e. e.block) (unmarked_entries pages skip entries)
        ≡ unmarked_blocks pages skip (map (λ e. e.block) entries) }
{}
