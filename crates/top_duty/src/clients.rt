//! The items of the clients.
ghost use Rattle.std.specs.Prelude.{◌≡◌, ◌<◌, ◌≤◌, ◌^◌, ℕ, [], All, IfOk, IfErr};
ghost use Rattle.raid_script.specs.Asked.{AreFew, IsAsked};
ghost use Rattle.top_words.specs.Asked.{AreNumbersInRange, IsDrawable};
ghost use Rattle.top_words.specs.Views.{action_seen};
ghost use Rattle.top_duty.specs.Steps.{clients_by, drawn_or};
ghost use Rattle.top_duty.specs.Views.{drawn_by, items_seen};

use item_list::Items;
use raid_script::generate;
use std::alloc::Global;
use top_status::Status;
use top_words::{Action, Drawing};

// The items that are drawn for so many blocks; none where none are to be drawn.
fn draw_by(alloc: Global, drawn: Option<Drawing>, blocks: u64) -> Result<Vec<Items>, Status>
    requires range { IsDrawable drawn }
    requires blocks { 0 < blocks }
    requires most { blocks ≤ 2 ^ 32 }
    ensures asked { IfOk result (λ clients. (columns graphs : ℕ) →
        All (All (IsAsked columns graphs)) (items_seen clients.items)) }
    ensures few { IfOk result (λ clients. AreFew (items_seen clients.items)) }
    ensures value { IfOk result (λ clients. items_seen clients.items ≡ drawn_or drawn [] blocks) }
    ensures memory { IfErr result (λ status. status ≡ Status.Memory) }
{
    match drawn {
        Some(Drawing { seed, clients, ops }) => {
            match generate(alloc, u64::from(seed), clients, ops, blocks) {
                Ok(script) => Ok(script.clients()),
                Err(_) => Err(Status::Memory),
            }
        }
        None => Ok(Vec::new(alloc)),
    }
}

/// The items that are drawn for so many blocks; none where the action draws none.
pub(crate) fn draw(alloc: Global, action: Action<'_>, blocks: u64) -> Result<Vec<Items>, Status>
    requires range { AreNumbersInRange (action_seen action) }
    requires blocks { 0 < blocks }
    requires most { blocks ≤ 2 ^ 32 }
    ensures asked { IfOk result (λ clients. (columns graphs : ℕ)
        → All (All (IsAsked columns graphs)) (items_seen clients.items)) }
    ensures few { IfOk result (λ clients. AreFew (items_seen clients.items)) }
    ensures value { IfOk result
        (λ clients. items_seen clients.items ≡ drawn_by (action_seen action.entry) blocks) }
    ensures memory { IfErr result (λ status. status ≡ Status.Memory) }
{
    draw_by(alloc, action.profile().drawn, blocks)
}

/// Of the items of the script and those that are drawn those that the action runs.
pub fn choose(action: Action<'_>, scripted: Vec<Items>, drawn: Vec<Items>) -> Vec<Items>
    ensures { (blocks : ℕ) → items_seen drawn.items ≡ drawn_by (action_seen action.entry) blocks →
        items_seen result.items
        ≡ clients_by (action_seen action.entry) (items_seen scripted.items) blocks }
{
    match action.profile().drawn {
        Some(_) => drawn,
        None => scripted,
    }
}
