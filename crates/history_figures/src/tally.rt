// Where a run stands: its figures go by value, and each record hands them back.
ghost use Rattle.std.specs.Prelude.{◌≡◌, ◌+◌, ◌<◌, ◌^◌};
ghost use Rattle.history_figures.specs.Figures.{new_run, in_range, became_stuck, allocated as Figures·allocated, collected as Figures·collected, used as Figures·used};

use types::MAX_BLOCKS;

// The most records of a history.
pub const MAX_RECORDS: usize = 4294967295;

// Accepted allocations, blocks allocated in all, largest accepted size, full collections forced or recorded, most blocks in use after any
// record, and how often an object became stuck. Laid out as in C, so that a run can be handed in and out there.
#[repr(C)]
#[derive(Clone, Copy)]
pub struct Tally {
    pub allocations: u64,
    pub blocks: u64,
    pub largest: u64,
    pub collections: u64,
    pub peak: u64,
    pub stuck: u64,
}

// A run so far: the number that stopped it or 0, the records run, the figures. The number is no Option of a refusal: it is handed in and out as
// C lays it out, and printed.
#[repr(C)]
#[derive(Clone, Copy)]
pub struct Run {
    pub number: usize,
    pub records: usize,
    pub tally: Tally,
}

impl Tally {
    // With an accepted allocation of n blocks.
    pub fn allocated(mut self, n: u64) -> Tally
        requires { (self.allocations + 1 < 2 ^ 64) × (self.blocks + n < 2 ^ 64) }
        ensures { result ≡ Figures·allocated n self }
    {
        self.allocations += 1;
        self.blocks += n;
        self.largest = self.largest.max(n);
        self
    }

    // With a collection more.
    pub fn collected(mut self) -> Tally
        requires { self.collections + 1 < 2 ^ 64 }
        ensures { result ≡ Figures·collected self }
    {
        self.collections += 1;
        self
    }

    // With n blocks in use after a record.
    pub fn used(mut self, n: u64) -> Tally
        ensures { result ≡ Figures·used n self }
    {
        self.peak = self.peak.max(n);
        self
    }

    // With an object more that became stuck.
    pub fn became_stuck(mut self) -> Tally
        requires { self.stuck + 1 < 2 ^ 64 }
        ensures { result ≡ became_stuck self }
    {
        self.stuck += 1;
        self
    }
}

// A run before its first record.
pub fn new_run() -> Run
    ensures { result ≡ new_run }
{
    Run {
        number: 0,
        records: 0,
        tally: Tally {
            allocations: 0,
            blocks: 0,
            largest: 0,
            collections: 0,
            peak: 0,
            stuck: 0,
        },
    }
}

// Whether a run is one that a run can leave. The record that stopped it may have forced a collection.
pub fn in_range(run: Run) -> bool
    ensures { result ≡ in_range run }
{
    let records = run.records as u64;
    run.records <= MAX_RECORDS
        && run.tally.allocations <= records
        && run.tally.blocks <= MAX_BLOCKS as u64 * records
        && run.tally.stuck <= records
        && run.tally.collections <= records + (run.number != 0) as u64
}
