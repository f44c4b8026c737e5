// Copies of scripts.
ghost use Rattle.std.specs.Prelude.{◌≡◌, ◌↔◌, IsTrue, IfOk};
ghost use Rattle.stamp_base.specs.Setups.{numbers_of};
ghost use Rattle.session_script.specs.Script.{data_of};

use port_io::Fate;
use session_script::{Line, Script};
use stamp_base::{NoMemory, Setup, Store};
use std::alloc::Global;

/// A copy that says what the script says. NoMemory where memory is refused.
pub fn copied(alloc: Global, script: &Script) -> Result<Script, NoMemory>
    ensures { IfOk result (λ copy. data_of copy ≡ data_of script.now) }
{
    let mut leads = Vec::new(alloc);
    leads.extend_from_slice(script.leads.as_slice())?;
    let mut faults = Vec::new(alloc);
    faults.extend_from_slice(script.faults.as_slice())?;
    let mut lines = Vec::new(alloc);
    lines.extend_from_slice(script.lines.as_slice())?;
    Ok(Script {
        setup: script.setup,
        leads,
        faults,
        lines,
    })
}

/// Whether two scripts say the same.
pub fn is_same(a: &Script, b: &Script) -> bool
    ensures { IsTrue result ↔ (data_of a.now ≡ data_of b.now) }
{
    same_setup(&a.setup, &b.setup)
        && same_leads(a.leads.as_slice(), b.leads.as_slice())
        && same_faults(a.faults.as_slice(), b.faults.as_slice())
        && same_lines(a.lines.as_slice(), b.lines.as_slice())
}

fn same_setup(a: &Setup, b: &Setup) -> bool
    ensures { IsTrue result ↔ (numbers_of a.now ≡ numbers_of b.now) }
{
    a == b
}

fn same_leads(a: &[u64], b: &[u64]) -> bool
    ensures { IsTrue result ↔ (a.now ≡ b.now) }
{
    a == b
}

fn same_faults(a: &[(Store, u64, Fate)], b: &[(Store, u64, Fate)]) -> bool
    ensures { IsTrue result ↔ (a.now ≡ b.now) }
{
    a == b
}

fn same_lines(a: &[Line], b: &[Line]) -> bool
    ensures { IsTrue result ↔ (a.now ≡ b.now) }
{
    a == b
}
