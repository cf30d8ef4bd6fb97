//! The component that a command names.
ghost use Rattle.std.specs.Prelude.{◌≡◌, ◌≤◌, length, take, IfOk, IfErr};
ghost use Rattle.std.specs.List.{position};
ghost use Rattle.std.specs.Str.{bytes_eq};
ghost use Rattle.raid_conf.specs.Form.{IsConf};
ghost use Rattle.top_words.specs.Profiled.{component_seen};
ghost use Rattle.top_words.specs.Views.{action_seen};
ghost use Rattle.top_fetch.specs.Answers.{IsUsage, AnswersAs};
ghost use Rattle.top_bay.specs.Asked.{comp_in, comp_named, component_in, names_of};
ghost use Rattle.top_bay.specs.Views.{IsKnown, IsNamed, IsPlace};

use crate::names::{count, name_at};
use raid_conf::Conf;
use top_status::Status;
use top_words::{Action, Component};

// The first of so many devices that has this name.
fn place_of(conf: &Conf, count: u32, name: &str) -> Option<u32>
    requires conf { IsConf conf.now }
    requires within { count ≤ length (names_of conf.now) }
    ensures { result ≡ position (λ n. bytes_eq n name.now) (take count (names_of conf.now)) }
{
    for k in 0..count {
        if name_at(conf, k) == name {
            return Some(k);
        }
    }
    None
}

// The place of a component among so many devices. One that is absent has no name.
#[tactic(auto, unfolding(crate::specs::Asked::component_in))]
fn place(conf: &Conf, count: u32, name: &str) -> Result<Option<u32>, Status>
    requires conf { IsConf conf.now }
    requires within { count ≤ length (names_of conf.now) }
    ensures answer { AnswersAs (λ comp. comp) result
        (component_in (take count (names_of conf.now)) name.now) }
    ensures kind { IfErr result IsUsage }
{
    if name.is_empty() {
        return Err(Status::Usage(3));
    }
    match place_of(conf, count, name) {
        Some(place) => Ok(Some(place)),
        None => Err(Status::Usage(3)),
    }
}

// The place of a component among the columns' disks.
fn column(conf: &Conf, name: &str) -> Result<Option<u32>, Status>
    requires { IsConf conf.now }
    ensures answer { AnswersAs (λ comp. comp) result (component_in conf.now.disks name.now) }
    ensures known { IfOk result (IsPlace conf.now.disks conf.now.columns name.now) }
    ensures kind { IfErr result IsUsage }
{
    place(conf, conf.disks.len(), name)
}

// The place of a component: of a column, or of any device.
fn named(conf: &Conf, component: Component<'_>) -> Result<Option<u32>, Status>
    requires { IsConf conf.now }
    ensures answer { AnswersAs (λ comp. comp) result
        (comp_named conf.now (component_seen component.entry)) }
    ensures known { IfOk result (IsNamed conf.now (component_seen component.entry)) }
    ensures kind { IfErr result IsUsage }
{
    match component {
        Component::Nameless => Ok(None),
        Component::Column { name } => column(conf, name),
        Component::Device { name } => place(conf, count(conf), name),
    }
}

/// The place of the component that the action names: for `-f`, `-F` and `-R` that of its column, for `-g` that of its device, the spares
/// behind the columns; none where it names none.
pub(crate) fn open_component(conf: &Conf, action: Action<'_>) -> Result<Option<u32>, Status>
    requires { IsConf conf.now }
    ensures answer { AnswersAs (λ comp. comp) result (comp_in conf.now (action_seen action.entry)) }
    ensures known { IfOk result (IsKnown conf.now (action_seen action.entry)) }
    ensures kind { IfErr result IsUsage }
{
    named(conf, action.profile().component)
}
