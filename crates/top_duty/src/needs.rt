//! What an action asks of the opening.
ghost use Rattle.std.specs.Prelude.{◌≡◌};
ghost use Rattle.top_bay.specs.Views.{asked_seen};
ghost use Rattle.top_words.specs.Profiled.{component_seen};
ghost use Rattle.top_words.specs.Views.{action_seen};
ghost use Rattle.top_duty.specs.Opening.{excused_by, needs_for, needs_of, own_by};

use top_bay::Asked;
use top_open::Needs;
use top_words::{Action, Component, Rebuilding};

// The column that an action names, whose own device is refused for nothing.
fn excused_by(component: Component<'_>, comp: Option<u32>) -> Option<u32>
    ensures { result ≡ excused_by (component_seen component.entry) comp }
{
    match component {
        Component::Column { .. } => comp,
        Component::Nameless | Component::Device { .. } => None,
    }
}

// Whether the disk onto which a column is rebuilt is its own.
fn own_by(rebuild: Option<Rebuilding>) -> bool
    ensures { result ≡ own_by rebuild }
{
    match rebuild {
        Some(Rebuilding::InPlace) => true,
        Some(Rebuilding::Elsewhere | Rebuilding::Further) | None => false,
    }
}

// What is asked of the opening, where a component is named its place.
fn needs_for(action: Action<'_>, comp: Option<u32>) -> Needs
    ensures { result ≡ needs_for (action_seen action.entry) comp }
{
    let profile = action.profile();
    Needs {
        plain: profile.plain,
        labels: profile.labels,
        excused: excused_by(profile.component, comp),
        own: own_by(profile.rebuild),
        writes: profile.writes,
        adopts: false,
    }
}

pub(crate) fn needs_of(asked: &Asked<'_>) -> Needs
    ensures { result ≡ needs_of (asked_seen asked.now) }
{
    Needs {
        adopts: asked.command.adopt,
        ..needs_for(asked.command.action, asked.comp)
    }
}
