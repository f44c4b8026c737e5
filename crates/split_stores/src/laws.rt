// What holds of every history that was settled.
ghost use Rattle.split_stores.specs.Orders.{SettledByPlans, SettledIsOrdered, SettledIsPlanned};

use command_semantics::orders_are_planned;

/// Which lines a script has makes no difference to what its logs come to: its setup, leads and faults alone do.
pub fn settled_by_plans()
    ensures { SettledByPlans }
{}

/// A history that was settled is what events come to that read the clocks, one after the other, whose ticks are those of the logs.
pub fn settled_is_ordered()
    ensures { SettledIsOrdered }
{}

/// A history that was settled has the faults, ticks and readings that the script plans, where its ticks are those of the lines.
pub fn settled_is_planned()
    ensures { SettledIsPlanned }
{
    orders_are_planned();
}
