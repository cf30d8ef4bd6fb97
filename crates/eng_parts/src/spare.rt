//! The lists in which a closed core hands out what it has.
ghost use Rattle.std.specs.Prelude.{◌≡◌, ◌≤◌, IfOk, [], vec_capacity};

use crate::memory::Memory;
use blk_plain::limits;
use eng_cols::Column;
use eng_world::Reply;
use item_list::Items;
use std::alloc::Global;
use std::marker::Model;

/// Lists for what is handed out in the end, empty until then. Contracts see how many clients there are beside the
/// engine's own.
#[derive(Drop)]
pub struct Spare {
    pub(crate) clients: u32,
    pub(crate) items: Vec<Items>,
    pub(crate) replies: Vec<Vec<Reply>>,
    pub(crate) columns: Vec<Column>,
}

impl Model for Spare {
    ghost use Rattle.std.specs.Prelude.{◌≡◌, ◌≤◌, ℕ, [], vec_capacity};

    ghost Value = { ℕ };

    ghost view = { λ s. s.clients };

    ghost invariant = { λ s. record {
      clients : s.clients ≤ 16;
      items : (s.items.items ≡ []) × (16 ≤ vec_capacity s.items);
      replies : (s.replies.items ≡ []) × (16 ≤ vec_capacity s.replies);
      columns : (s.columns.items ≡ []) × (32 ≤ vec_capacity s.columns);
    } };
}

/// What a spare holds: so many clients, and empty lists with room for 16 clients and 32 columns.
pub struct SpareLists {
    pub clients: u32,
    pub items: Vec<Items>,
    pub replies: Vec<Vec<Reply>>,
    pub columns: Vec<Column>,
}

impl Spare {
    /// Lists for so many clients. The only error is want of memory.
    pub fn open(alloc: Global, clients: u32) -> Result<Spare, Memory>
        requires { clients ≤ 16 }
        ensures { IfOk result (λ spare. spare ≡ clients) }
    {
        Ok(Spare {
            clients,
            items: Vec::with_capacity(alloc, limits::CLIENTS as usize)?,
            replies: Vec::with_capacity(alloc, limits::CLIENTS as usize)?,
            columns: Vec::with_capacity(alloc, limits::COLUMNS as usize)?,
        })
    }

    /// Its lists, to be filled.
    pub fn lists(self) -> SpareLists
        ensures clients { (result.clients ≡ self) × (self ≤ 16) }
        ensures items { (result.items.items ≡ []) × (16 ≤ vec_capacity result.items) }
        ensures replies { (result.replies.items ≡ []) × (16 ≤ vec_capacity result.replies) }
        ensures columns { (result.columns.items ≡ []) × (32 ≤ vec_capacity result.columns) }
    {
        SpareLists {
            clients: self.clients,
            items: self.items,
            replies: self.replies,
            columns: self.columns,
        }
    }
}
