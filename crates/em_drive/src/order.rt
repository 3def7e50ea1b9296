//! The order in which cores take turns.
ghost use Rattle.std.specs.Prelude.{◌≡◌, ◌≤◌, length};
ghost use Rattle.em_log.specs.History.{has};
ghost use Rattle.em_log.specs.Laws.{AreDifferent};
ghost use Rattle.em_drive.specs.Orders.{order_used, IsOrderOf};

use arrayvec::ArrayVec;
use std::marker::Model;

/// The numbers of a graph's cores in the order in which they take turns.
#[derive(Drop)]
pub struct Order {
    cores: ArrayVec<u8, 64>,
}

impl Model for Order {
    ghost use Rattle.std.specs.Prelude.{List, ℕ};

    ghost Value = { List ℕ };

    ghost view = { λ o. o.cores.items };
}

fn contains(numbers: &[u8], n: u8) -> bool
    ensures { result ≡ has numbers.now n }
{
    numbers.iter().any(|m| *m == n)
}

impl Order {
    /// The order used for so many cores: the numbers of the list that are below them, in their order, and then the
    /// missing ones upwards. The list has different numbers.
    pub fn of(list: &[u8], cores: u8) -> Order
        requires different { AreDifferent list.now }
        requires few { length list.now ≤ 64 }
        requires cores { cores ≤ 64 }
        ensures value { result ≡ order_used list.now cores }
        ensures each_core { IsOrderOf cores result }
    {
        let mut order = Order {
            cores: ArrayVec::new(),
        };
        for core in list {
            if *core < cores {
                order.cores.push(*core);
            }
        }
        for core in 0..cores {
            if !contains(list, core) {
                order.cores.push(core);
            }
        }
        order
    }

    /// The cores, by their numbers.
    pub fn as_slice(&self) -> &[u8]
        ensures { result.now ≡ self.now }
    {
        self.cores.as_slice()
    }
}
