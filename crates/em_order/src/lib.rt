//! Ordered queues: their tickets, the sends that they hold back, and the order in which these enter.
#![tactic(auto)]

mod item_list;
pub mod orders;
pub mod tickets;

pub use item_list::Item;
pub use orders::Orders;
pub use tickets::{Ticket, Way};
