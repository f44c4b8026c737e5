ghost use Rattle.std.specs.Prelude.{◌≡◌, ◌≤◌, ◌<◌, ◌/◌, max, min};

use stamp_base::Setup;

/// How many tickets a request queue has room for.
pub const REQUEST_ROOM: usize = 64;

/// How much is opened.
#[derive(Clone, Copy)]
pub struct Sizes {
    /// How many nodes there are.
    pub nodes: usize,
    /// How many persist workers each node has.
    pub workers: usize,
    /// How many entries a batch has room for.
    pub batch: usize,
    /// How many actors send requests.
    pub senders: usize,
    /// Whether sessions place their commits.
    pub direct: bool,
    pub ghost few: { workers ≤ 8 },
    pub ghost have_room: { 0 < batch },
}

impl Sizes {
    /// The sizes by a setup, for so many senders.
    pub fn of(setup: &Setup, senders: usize) -> Sizes
        ensures nodes { result.nodes ≡ setup.now.nodes }
        ensures workers { result.workers ≡ setup.now.workers }
        ensures batch { result.batch ≡ setup.now.batch }
        ensures senders { result.senders ≡ senders }
        ensures direct { result.direct ≡ setup.now.direct }
    {
        Sizes {
            nodes: setup.nodes as usize,
            workers: setup.workers as usize,
            batch: setup.batch as usize,
            senders,
            direct: setup.direct,
        }
    }

    /// From how many tickets on a request stage takes them: half of the senders may go on meanwhile, and more than a batch has room
    /// for are of no use.
    pub fn enough(&self) -> usize
        ensures { result ≡ min (max 1 (self.now.senders / 2)) self.now.batch }
    {
        let half = self.senders / 2;
        half.max(1).min(self.batch)
    }
}
