//! Lists of items that are joined and cut in constant time, and take memory at the opening alone.
ghost use Rattle.std.specs.Prelude.{◌≡◌, ◌+◌, ◌^◌, ◌<◌, [], ◌∷◌, ◌++◌, take, drop, length, slice_get, IfOk};

use em_log::{CoreId, NoMemory, QueueId};
use std::alloc::Global;
use std::collections::LinkedList;
use std::marker::Model;
use std::mem::replace;

/// An event on its way to a queue: its index, the queue, and the core that sent it.
#[derive(Clone, Copy, Debug, PartialEq, Eq, Default)]
pub struct Item {
    pub index: u16,
    pub queue: QueueId,
    pub core: CoreId,
}

/// A list of items. Each stands in a node that goes from list to list.
#[derive(Drop)]
pub struct ItemList {
    items: LinkedList<Item>,
}

impl Model for ItemList {
    ghost use Rattle.std.specs.Prelude.{List};
    ghost use Rattle.em_order.specs.declared.item_list.Item.{Item};
    ghost use Rattle.em_order.specs.ItemCode.{items_code};

    ghost Value = { List Item };

    ghost coded = { items_code };

    ghost view = { λ c. c.items };
}

impl ItemList {
    /// No item and no node.
    pub fn empty(alloc: Global) -> ItemList
        ensures { result ≡ [] }
    {
        ItemList {
            items: LinkedList::new(alloc),
        }
    }

    /// One node, with any item in it.
    pub fn node(alloc: Global) -> Result<ItemList, NoMemory>
        ensures { IfOk result (λ c. length c ≡ 1) }
    {
        let mut items = LinkedList::new(alloc);
        match items.push_back(Item::default()) {
            Ok(()) => Ok(ItemList { items }),
            Err(_) => Err(NoMemory),
        }
    }

    /// Puts the item into the one node.
    pub fn fill(&mut self, item: Item)
        requires { length self.old ≡ 1 }
        ensures { self.new ≡ item ∷ [] }
    {
        if let Some(first) = self.items.front_mut() {
            *first = item;
        }
    }

    /// Moves all items of the other list behind these.
    pub fn append(&mut self, other: &mut ItemList)
        requires { length self.old + length other.old < 2 ^ 63 }
        ensures items { self.new ≡ self.old ++ other.old }
        ensures other { other.new ≡ [] }
    {
        let _ = self.items.append(&mut other.items);
    }

    /// The first item.
    pub fn first(&self) -> Option<Item>
        ensures { result ≡ slice_get self.now 0 }
    {
        self.items.front().copied()
    }

    /// Cuts off the first node.
    pub fn take_first(&mut self) -> ItemList
        requires { 0 < length self.old }
        ensures first { result ≡ take 1 self.old }
        ensures rest { self.new ≡ drop 1 self.old }
    {
        match self.items.split_off(1) {
            Ok(rest) => ItemList {
                items: replace(&mut self.items, rest),
            },
            Err(_) => unreachable!(),
        }
    }
}
