//! The names of the devices that an action goes by.
ghost use Rattle.std.specs.Prelude.{◌≡◌, ◌<◌, ◌+◌, length, Some, slice_get};
ghost use Rattle.raid_conf.specs.Form.{IsConf};
ghost use Rattle.top_words.specs.Profiled.{component_seen};
ghost use Rattle.top_words.specs.Views.{action_seen};
ghost use Rattle.top_bay.specs.Asked.{names_by, names_of, names_with};
ghost use Rattle.top_bay.specs.Steps.{name_of};

use raid_conf::Conf;
use top_words::{Action, Component, Kind};

/// How many devices a configuration has: the disks of the columns, and the spares.
pub(crate) fn count(conf: &Conf) -> u32
    requires { IsConf conf.now }
    ensures { result ≡ length (names_of conf.now) }
{
    conf.disks.len() + conf.spare_names.len()
}

/// The name of device k, the columns' disks before the spares; empty where that disk is absent.
pub(crate) fn name_at(conf: &Conf, k: u32) -> &str
    requires conf { IsConf conf.now }
    requires within { k < length (names_of conf.now) }
    ensures { slice_get (names_of conf.now) k ≡ Some result.now }
{
    let columns = conf.disks.len();
    if k < columns {
        conf.disks.get(k)
    } else {
        conf.spare_names.get(k - columns)
    }
}

// How many names a component has.
fn count_named(component: Component<'_>) -> u32
    ensures { result ≡ length (name_of (component_seen component.entry)) }
{
    match component {
        Component::Nameless => 0,
        Component::Column { .. } | Component::Device { .. } => 1,
    }
}

// How many devices are gone by.
fn count_with(conf: &Conf, kind: Kind, component: Component<'_>) -> u32
    requires { IsConf conf.now }
    ensures { result ≡ length (names_with conf.now kind (component_seen component.entry)) }
{
    match kind {
        Kind::Array | Kind::Shown => count(conf),
        Kind::Label => count_named(component),
        Kind::Conf => 0,
    }
}

/// How many devices an action goes by.
pub(crate) fn count_for(conf: &Conf, action: Action<'_>) -> u32
    requires { IsConf conf.now }
    ensures { result ≡ length (names_by conf.now (action_seen action.entry)) }
{
    let profile = action.profile();
    count_with(conf, profile.kind, profile.component)
}

// The name of a component that has one.
fn name_named<'n>(component: Component<'n>, k: u32) -> &'n str
    requires { k < length (name_of (component_seen component)) }
    ensures { slice_get (name_of (component_seen component.entry)) k ≡ Some result.now }
{
    match component {
        Component::Nameless => "",
        Component::Column { name } | Component::Device { name } => name,
    }
}

// The name of device k of those that are gone by.
fn name_with<'n>(conf: &'n Conf, kind: Kind, component: Component<'n>, k: u32) -> &'n str
    requires conf { IsConf conf.now }
    requires within { k < length (names_with conf.now kind (component_seen component)) }
    ensures { slice_get (names_with conf.now kind (component_seen component.entry)) k
        ≡ Some result.now }
{
    match kind {
        Kind::Array | Kind::Shown => name_at(conf, k),
        Kind::Label => name_named(component, k),
        Kind::Conf => "",
    }
}

/// The name of device k of those that an action goes by.
pub(crate) fn name_for<'n>(conf: &'n Conf, action: Action<'n>, k: u32) -> &'n str
    requires conf { IsConf conf.now }
    requires within { k < length (names_by conf.now (action_seen action)) }
    ensures { slice_get (names_by conf.now (action_seen action.entry)) k ≡ Some result.now }
{
    let profile = action.profile();
    name_with(conf, profile.kind, profile.component, k)
}
