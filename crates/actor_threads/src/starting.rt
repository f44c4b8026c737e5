// The start of a thread, which the gate may refuse as the system may.
ghost use Rattle.std.specs.Prelude.{◌≡◌, IfErr, IfOk};

use reply_pipeline::Gate;
use std::thread::{Promise, PromisedHandle, Scope, SpawnError};

/// Starts a thread in the scope; at Err the work is handed back.
pub fn start<
    's,
    E: 's,
    G: Gate,
    P: Promise<T> + Drop,
    F: FnOnce() -> T + Send + 's,
    T: Send + Drop + 's,
>(
    scope: &Scope<'s, E>,
    gate: &G,
    promise: P,
    work: F,
) -> Result<PromisedHandle<T, P>, SpawnError<F>>
    requires runs { F.pre work }
    requires keeps { (r : T) → F.post work r → P.kept_by promise r }
    ensures ok { IfOk result (λ h. h.promise ≡ promise) }
    ensures err { IfErr result (λ e. e.value ≡ work) }
{
    if gate.may_start_thread() {
        scope.spawn_with(promise, work)
    } else {
        Err(SpawnError { value: work })
    }
}
