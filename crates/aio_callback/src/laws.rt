//! Laws on records, each the contract of a function that does nothing.
ghost use Rattle.std.specs.Prelude.{◌≡◌, ◌≢◌, ◌≤◌, ◌↔◌, ℕ, true, List, length};
ghost use Rattle.std.specs.Prelude.{Option, Some};
ghost use Rattle.page_check.specs.Told.{Told};
ghost use Rattle.page_check.specs.declared.rules.DamagedPages.{DamagedPages};
ghost use Rattle.page_check.specs.SynchronousAnswer.{AllowsMark};
ghost use Rattle.aio_word.specs.declared.Class.TheVariants.{Unended};
ghost use Rattle.read_callbacks.specs.declared.chain.Raw.{Raw};
ghost use Rattle.read_callbacks.specs.declared.chain.CallbackId.{CallbackId};
ghost use Rattle.read_callbacks.specs.Chain.{good_count, has_check_behind_file, ChecksBehindFile};
ghost use Rattle.aio_callback.specs.ReadIoView.{ReadIoView, ReadFits, IsToldRead, HasAnswer};
ghost use Rattle.aio_callback.specs.ReadIoView.{with_pages};
ghost use Rattle.aio_callback.specs.ReadIoView.{record_aim, ReadsAs, record_mark};
ghost use Rattle.aio_callback.specs.StreamOutcomes.{stream_ids, IsStreamOutcome, given_count};

/// A record with the callbacks of a stream has ended in one of six ways, and its good pages are as
/// many as its owner gives in that case. The rule on damaged pages allows each of its marks.
pub fn stream_records_end_in_six_ways()
    ensures case { (told : Option Told) (relations : ℕ) (r : ReadIoView)
        (damaged : DamagedPages) → ReadFits told relations r → r.label.ended ≢ Unended
        → r.ids ≡ stream_ids damaged → IsStreamOutcome damaged told r }
    ensures given { (r : ReadIoView) (damaged : DamagedPages) → r.ids ≡ stream_ids damaged
        → good_count r.ids r.result ≡ given_count r.result }
    ensures marks { (told : Option Told) (relations : ℕ) (r : ReadIoView)
        (damaged : DamagedPages) → ReadFits told relations r → r.label.ended ≢ Unended
        → r.ids ≡ stream_ids damaged → (i : ℕ) → AllowsMark damaged (record_mark r i) }
{}

/// Pages are checked exactly where a callback that checks them is registered before a File. Callbacks
/// run from the last to the first, so it runs after that File.
pub fn pages_are_checked_behind_a_file()
    ensures { (ids : List CallbackId) → (has_check_behind_file ids ≡ true) ↔ ChecksBehindFile ids }
{}

/// A record whose first pages were lent and read, and that was then given what the read answered,
/// has an answer that says what is told of them.
pub fn answered_by_its_read()
    ensures { (told : Option Told) (r : ReadIoView) (answer : Raw) (pages : List (List ℕ))
        → length pages ≡ r.count → r.count ≤ length r.pages → IsToldRead told r answer pages
        → HasAnswer told (record (with_pages r pages) { raw = Some answer }) }
{}

/// Two records with one aim are to read the same blocks with the same callbacks, into as much room.
pub fn an_aim_names_the_read()
    ensures { (r s : ReadIoView) → record_aim r ≡ record_aim s → ReadsAs r s }
{}

/// What is written into the pages that a record lends leaves what it is aimed at.
pub fn lent_pages_leave_the_aim()
    ensures { (r : ReadIoView) (pages : List (List ℕ))
        → record_aim (with_pages r pages) ≡ record_aim r }
{}
