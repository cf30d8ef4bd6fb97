//! The clients are closed.
ghost use Rattle.std.specs.Prelude.{◌≡◌, ◌≤◌, [], length, vec_capacity};
ghost use Rattle.eng_clients.specs.Replied.{AreClosed};

use crate::clients::Clients;
use eng_cols::Loss;
use eng_world::Reply;
use item_list::Items;

impl Clients {
    /// The first so many clients: their items, and their replies once the array is lost by this, if it is. The lists have
    /// room for them.
    pub fn close(
        self,
        count: u32,
        lost: Option<Loss>,
        items: Vec<Items>,
        replies: Vec<Vec<Reply>>,
    ) -> (Vec<Items>, Vec<Vec<Reply>>)
        requires count { count ≤ length self }
        requires items { (items.items ≡ []) × (count ≤ vec_capacity items) }
        requires replies { (replies.items ≡ []) × (count ≤ vec_capacity replies) }
        ensures { AreClosed lost self count result.0.items result.1.items }
    {
        let mut list = self.list;
        let mut items = items;
        let mut replies = replies;
        list.truncate(count as usize);
        for client in list {
            let closed = client.close(lost);
            items.push_reserved(closed.0);
            replies.push_reserved(closed.1);
        }
        (items, replies)
    }
}
