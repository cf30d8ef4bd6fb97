//! What an action makes of an array.
ghost use Rattle.std.specs.Prelude.{◌≡◌};
ghost use Rattle.top_words.specs.Views.{action_seen};
ghost use Rattle.top_duty.specs.Opening.{kind_of};
ghost use Rattle.top_duty.specs.Steps.{reads_fronts};

use top_words::{Action, Kind};

pub(crate) fn kind_of(action: Action<'_>) -> Kind
    ensures { result ≡ kind_of (action_seen action.entry) }
{
    action.profile().kind
}

/// Whether sector 0 of the devices is read: not where they get their first labels, nor where only the configuration is
/// printed.
pub(crate) fn reads_fronts(action: Action<'_>) -> bool
    ensures { result ≡ reads_fronts (action_seen action.entry) }
{
    action.profile().reads
}
