//! The events of the clock and of the nodes: each over the parts that it touches, exact to the machine's definition of it.
#![tactic(auto)]

mod accepting;
mod answering;
mod clock;
mod crashing;
mod deciding;
mod extending;
mod putting;
mod renewing;
mod stores_asked;
mod taking;

pub use accepting::accept;
pub use answering::answer;
pub use clock::{note, tick};
pub use crashing::crash;
pub use deciding::decide;
pub use extending::extend;
pub use putting::put;
pub use renewing::renew;
pub use stores_asked::{commit_to_place, put_store, record_store, take_store};
pub use taking::take;
