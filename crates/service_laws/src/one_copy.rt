// With strict reads there is one copy.
ghost use Rattle.service_laws.specs.OneCopy.{OneCopyNow, OneCopyAlways};

/// Where the setup asks for strict reads, in every state that is reached, each read of a key that its transaction had not written
/// gives what was committed last below the transaction's place: below its commit, or below its start where it has none.
pub fn reads_give_one_copy()
    ensures { OneCopyNow }
{}

/// So it is in every history of the machine. With fresh stamps this is strict serializability.
pub fn one_copy_if_strict()
    ensures { OneCopyAlways }
{}
