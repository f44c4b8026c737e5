// The store that a write or a fetch of a session asks, told before it is made.
ghost use Rattle.std.specs.Prelude.{◌≡◌};
ghost use Rattle.stamp_base.specs.Setups.{numbers_of};
ghost use Rattle.machine.specs.Events.Write.{write_asks};
ghost use Rattle.machine.specs.Events.Fetch.{fetch_asks};

use event_parts::Client;
use stamp_base::{KeyNo, Setup, Store};

/// The store that a write at the key asks: none where the write is refused.
pub fn write_store(client: &Client, key: KeyNo) -> Option<Store>
    ensures { result ≡ write_asks key client.now }
{
    if client.check_write(key).is_err() {
        return None;
    }
    match client.start() {
        Some(_) => Some(Store::Cells),
        None => None,
    }
}

/// The store that a fetch at the key asks: none where the fetch is refused.
pub fn fetch_store(client: &Client, setup: &Setup, key: KeyNo) -> Option<Store>
    ensures { result ≡ fetch_asks (numbers_of setup.now) key client.now }
{
    if client.check_fetch(setup, key).is_err() {
        return None;
    }
    match (client.start(), client.epoch()) {
        (Some(_), Some(_)) => Some(Store::Cells),
        _ => None,
    }
}
