//! The items that are handed in.
ghost use Rattle.std.specs.Prelude.{◌≡◌, length};
ghost use Rattle.eng_log.specs.Given.{items_at};

use item_list::Items;

/// How many items the client has, none past the last client.
pub fn count_of(clients: &[Items], client: u32) -> usize
    ensures { result ≡ length (items_at clients.now client) }
{
    match clients.get(client as usize) {
        Some(items) => items.len(),
        None => 0,
    }
}
