//! Scripts of faults and short answers for shelves in memory.
ghost use Rattle.std.specs.Prelude.{◌≡◌, ◌<◌, ◌-◌, ◌^◌, unwrap_or, true};
ghost use Rattle.std.specs.Option.{option_map};
ghost use Rattle.fault_injection.specs.Script.{are_positive, is_listed};

/// What fails, and which reads answer short.
///
/// The disks of a shelf are numbered from 0 in the order of opening. Opens, and the length calls
/// and reads of each disk, are counted from 1.
#[derive(Drop)]
pub struct Script {
    /// The opens that fail.
    pub fail_opens: Vec<u64>,
    /// The disks and length calls that fail.
    pub fail_lengths: Vec<(u32, u64)>,
    /// The disks and reads that fail.
    pub fail_reads: Vec<(u32, u64)>,
    /// For each disk how many pages its reads answer at most, the k-th number for the k-th read.
    /// Of two lists of one disk the first counts.
    pub shorts: Vec<(u32, Vec<u32>)>,
}

impl Script {
    ghost use Rattle.fault_injection.specs.Script.{fails_open, fails_length, fails_read, shorts_of};
    ghost use Rattle.fault_injection.specs.Script.{short_answer, has_positive_shorts};

    /// Whether each short answer is at least 1, as a shelf in memory wants it.
    pub fn has_positive_shorts(&self) -> bool
        ensures { result ≡ has_positive_shorts self.now }
    {
        self.shorts
            .as_slice()
            .iter()
            .all(|shorts| are_positive(shorts.1.as_slice()))
    }

    pub(crate) fn fails_open(&self, number: u64) -> bool
        ensures { result ≡ fails_open self.now number }
    {
        self.fail_opens
            .as_slice()
            .iter()
            .any(|listed| *listed == number)
    }

    pub(crate) fn fails_length(&self, disk: u32, call: u64) -> bool
        ensures { result ≡ fails_length self.now disk call }
    {
        is_listed(self.fail_lengths.as_slice(), disk, call)
    }

    pub(crate) fn fails_read(&self, disk: u32, read: u64) -> bool
        ensures { result ≡ fails_read self.now disk read }
    {
        is_listed(self.fail_reads.as_slice(), disk, read)
    }

    fn shorts_of(&self, disk: u32) -> Option<&[u32]>
        ensures { option_map (λ shorts. shorts.now) result ≡ shorts_of self.now disk }
    {
        self.shorts
            .as_slice()
            .iter()
            .find(|shorts| shorts.0 == disk)
            .map(|shorts| shorts.1.as_slice())
    }

    fn short_answer(&self, disk: u32, read: u64) -> Option<u32>
        requires { 0 < read }
        ensures { result ≡ short_answer self.now disk read }
    {
        match self.shorts_of(disk) {
            Some(shorts) => shorts.get((read - 1) as usize).copied(),
            None => None,
        }
    }

    /// How many pages a read of the disk answers at most.
    #[tactic(auto, using(crate::proofs::ShortAnswers::most_positive))]
    pub(crate) fn most_pages(&self, disk: u32, read: u64) -> u32
        requires { 0 < read }
        ensures most { result ≡ unwrap_or (short_answer self.now disk read) (2 ^ 32 - 1) }
        ensures positive { has_positive_shorts self.now ≡ true → 0 < result }
    {
        self.short_answer(disk, read).unwrap_or(u32::MAX)
    }
}

fn are_positive(numbers: &[u32]) -> bool
    ensures { result ≡ are_positive numbers.now }
{
    numbers.iter().all(|number| 0 < *number)
}

fn is_listed(calls: &[(u32, u64)], disk: u32, call: u64) -> bool
    ensures { result ≡ is_listed calls.now disk call }
{
    calls
        .iter()
        .any(|listed| listed.0 == disk && listed.1 == call)
}
