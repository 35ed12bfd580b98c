ghost use Rattle.std.specs.Prelude.{◌≡◌, ◌≤◌, ◌+◌, ◌<◌, ◌^◌, length};
ghost use Rattle.sim_ports.specs.Layout as spec;

use dip_lists::Items;

/// Contiguous addresses, and where their bytes stand among the bytes of all runs.
#[derive(Clone, Copy, Debug, PartialEq, Eq)]
pub(crate) struct Run {
    /// The lowest address.
    pub first: u64,
    /// How many addresses there are.
    pub count: u64,
    /// Where the byte of the lowest address stands.
    pub place: usize,
}

/// Runs in rising order.
pub(crate) type Runs = Items<Run>;

// Where the byte of an address stands, if the run has it.
fn place_in(run: Run, address: u64) -> Option<usize>
    requires { run.place + run.count < 2 ^ 64 }
    ensures { result ≡ spec.place_in run address }
{
    let past = address.checked_sub(run.first)?;
    if past < run.count {
        Some(run.place + past as usize)
    } else {
        None
    }
}

// How many of the runs begin at an address or below it.
fn begun_before(runs: &[Run], address: u64, end: usize) -> usize
    requires { spec.AreByteRuns runs.now end }
    ensures bound { result ≤ length runs.now }
    ensures before { spec.AllBegin runs.now address result }
    ensures behind { spec.NoneBegins runs.now address result }
{
    let mut low = 0;
    let mut high = runs.len();
    while low < high {
        let middle = low + (high - low) / 2;
        if runs[middle].first <= address {
            low = middle + 1;
        } else {
            high = middle;
        }
    }
    low
}

/// Where the byte of an address stands, if one of the runs of so many bytes has it: one binary search.
pub(crate) fn place_in_runs(runs: &[Run], address: u64, end: usize) -> Option<usize>
    requires { spec.AreByteRuns runs.now end }
    ensures { result ≡ spec.place_in_runs runs.now address }
{
    let begun = begun_before(runs, address, end);
    if begun == 0 {
        return None;
    }
    place_in(runs[begun - 1], address)
}
