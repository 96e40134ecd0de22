// Lists that are done with, whose memory serves new ones.
ghost use Rattle.std.specs.Prelude.{◌≡◌, []};

use crate::List;
use std::alloc::Global;

/// Lists that are done with. Where many lists come and go, new ones take their memory in place of other. No result depends on
/// their contents.
#[derive(Drop)]
pub struct Spare<T> {
    lists: Vec<List<T>>,
}

impl<T: Drop> Spare<T> {
    /// Starts with nothing kept.
    pub fn new(alloc: Global) -> Spare<T> {
        Spare {
            lists: Vec::new(alloc),
        }
    }

    /// A list without values, with the memory of the list that was given last, if one is kept.
    pub fn take(&mut self, alloc: Global) -> List<T>
        ensures { result ≡ [] }
    {
        match self.lists.pop() {
            Some(mut list) => {
                list.clear();
                list
            }
            None => List::new(alloc),
        }
    }

    /// Keeps a list that is done with. Its values are dropped no later than when it is taken; where memory for keeping it
    /// is refused, it is dropped at once.
    pub fn give(&mut self, list: List<T>) {
        let _ = self.lists.push(list);
    }
}
