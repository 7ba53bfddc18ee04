//! What the queue's rule says of a reference. The function does nothing: it is there for its
//! contract.
ghost use Rattle.std.specs.Prelude.{◌≡◌, ◌+◌, ℕ, List};
ghost use Rattle.aio_word.specs.declared.WaitRef.{WaitRef};
ghost use Rattle.method_worker.specs.declared.log.Log.{Log};
ghost use Rattle.method_worker.specs.QueueRule.{IsBalanced, push_count, pop_count, occurrences};

/// At every moment, each reference was pushed as often over all seats as it was popped over all
/// seats and stands in the queue. So it is popped at most as often as it was pushed.
pub fn each_reference_is_popped_at_most_as_often()
    ensures { (handles : ℕ) (items : List WaitRef) (views : List Log)
        → IsBalanced handles items views
        → (t : WaitRef) → push_count t views ≡ pop_count t views + occurrences t items }
{}
