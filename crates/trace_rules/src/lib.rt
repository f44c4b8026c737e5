//! A trace of transactions without stamps, and what it means that stamps can be given which make it isolated; why a cycle of edges
//! refuses it, why stamps that rise along the edges isolate it, and small traces beside the definitions.
#![tactic(auto)]

mod cycles;
mod trace;
mod wanted;
mod worked;

pub use cycles::{
    chains_keep_time, cycles_refuse, edges_are_forced, graph_cycles_refuse, graph_orders_stamp,
    lists_force_orders, lost_updates_refuse, overlaps_refuse, rising_places_serialise,
    rising_stamps_isolate, serial_graph_orders_stamp, serial_points_order_wholes,
    serial_readers_come_first, unread_may_be_left_out, wrong_reads_refuse,
};
pub use trace::{Operation, Trace, Transaction, Version};
pub use wanted::{Level, Times, Wanted};
pub use worked::write_skew_tells_levels_apart;
