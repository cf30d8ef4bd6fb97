//! Which stripes are complete.
ghost use Rattle.std.specs.Prelude.{◌<◌, MatchBool};
ghost use Rattle.eng_cols.specs.Cols.{IsFor};
ghost use Rattle.raid_recon.specs.Array.{IsComplete, Lacks};

use eng_cols::Cols;
use lay_core::Layout;

/// Whether no unit of the stripe is missing.
pub(crate) fn is_complete<L: Layout>(layout: &L, cols: &Cols, stripe: u32) -> bool
    requires fit { IsFor (L.shape layout.now) cols.now }
    requires stripe { stripe < (L.shape layout.now).stripes }
    ensures { MatchBool result
        (IsComplete (L.shape layout.now) cols.now.states stripe)
        (Lacks (L.shape layout.now) cols.now.states stripe) }
{
    for unit in 0..layout.width() {
        match cols.spot(layout, stripe, unit) {
            Some(_) => {}
            None => return false,
        }
    }
    true
}
