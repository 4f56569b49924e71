//! What came last among the actions.

ghost use Rattle.std.specs.Prelude.{◌≡◌, ℕ, List, [], ◌∷◌, OnOk};
ghost use Rattle.er_history.specs.History.{Action};
ghost use Rattle.er_latest.specs.Roles.{said_by};
ghost use Rattle.er_latest.specs.Latest.{LatestAre, HasRoomOf, IsTold};

use crate::role::Role;
use crate::{groups, lists, named, newest};
use er_history::firsts::Now;
use er_io::NoMemory;
use er_numbers::Numbers;
use er_trace::name::Name;
use indexmap::IndexMap;
use std::alloc::Global;
use std::hash::Hash;

/// What came last among the actions, by document, interval, request, dispatch and target.
pub struct Latest {
    /// The last parse step, by document.
    pub(crate) steps: Numbers<u32>,
    /// The last run of a blocking script, by document.
    pub(crate) blocking: Numbers<u32>,
    /// The last run of a deferred script, by document.
    pub(crate) deferred: Numbers<u32>,
    /// That script, by document.
    pub(crate) scripts: Numbers<u32>,
    /// The last tick, by interval.
    pub(crate) ticks: Numbers<u32>,
    /// The last close of a reply, by request.
    pub(crate) replies: Numbers<u32>,
    /// The runs of static async scripts, by document.
    pub(crate) asyncs: IndexMap<u32, Vec<u32>>,
    /// The closes of first load events of static elements that are not plain, by document.
    pub(crate) statics: IndexMap<u32, Vec<u32>>,
    /// The handlers that have run, by dispatch and group.
    pub(crate) runs: IndexMap<(u32, u32), Vec<u32>>,
    /// The groups that have run, in order, by dispatch.
    pub(crate) groups: IndexMap<u32, Vec<u32>>,
    /// The last piece of a close of a dispatch at an element, by type and element.
    pub(crate) elements: IndexMap<Name, IndexMap<u32, u32>>,
    /// The last piece of a close of a dispatch at a window, by type and document.
    pub(crate) windows: IndexMap<Name, IndexMap<u32, u32>>,
    pub(crate) alloc: Global,
}

impl Drop for Latest {
    fn drop(self) {
        let Latest {
            steps,
            blocking,
            deferred,
            scripts,
            ticks,
            replies,
            asyncs,
            statics,
            runs,
            groups,
            elements,
            windows,
            alloc: _,
        } = self;
        numbers_go(steps);
        numbers_go(blocking);
        numbers_go(deferred);
        numbers_go(scripts);
        numbers_go(ticks);
        numbers_go(replies);
        let_go(asyncs);
        let_go(statics);
        let_go(runs);
        let_go(groups);
        let_go(elements);
        let_go(windows);
    }
}

/// Lets a table go, by a call: the ends of twelve tables written out in a row take long to prove.
fn let_go<K: Eq + Hash + Drop, V: Drop>(_: IndexMap<K, V>) {}

/// The same of numbers by numbers.
fn numbers_go(_: Numbers<u32>) {}

impl Latest {
    /// No action yet. It takes no memory.
    pub fn new(alloc: Global) -> Self
        ensures { LatestAre result [] }
    {
        Latest {
            steps: Numbers::new(alloc),
            blocking: Numbers::new(alloc),
            deferred: Numbers::new(alloc),
            scripts: Numbers::new(alloc),
            ticks: Numbers::new(alloc),
            replies: Numbers::new(alloc),
            asyncs: IndexMap::new(alloc),
            statics: IndexMap::new(alloc),
            runs: IndexMap::new(alloc),
            groups: IndexMap::new(alloc),
            elements: IndexMap::new(alloc),
            windows: IndexMap::new(alloc),
            alloc,
        }
    }

    /// Makes room for an event of this role. Look-ups answer what they did.
    pub fn make_room(&mut self, role: &Role<'_>) -> Result<(), NoMemory>
        ensures kept { (actions : List Action) → LatestAre self.old actions
            → LatestAre self.new actions }
        ensures room { OnOk result (HasRoomOf self.new (said_by role.now)) }
    {
        newest::make_room(&mut self.steps, role.step())?;
        newest::make_room(&mut self.blocking, role.blocking())?;
        newest::make_room(&mut self.deferred, role.deferred())?;
        newest::make_room(&mut self.scripts, role.deferred())?;
        newest::make_room(&mut self.ticks, role.tick())?;
        newest::make_room(&mut self.replies, role.reply())?;
        lists::make_room(&mut self.asyncs, role.async_run(), self.alloc)?;
        lists::make_room(&mut self.statics, role.static_load(), self.alloc)?;
        lists::make_room(&mut self.runs, role.handler(), self.alloc)?;
        lists::make_room(&mut self.groups, role.dispatch(), self.alloc)?;
        named::make_room(&mut self.elements, role.at_element(), self.alloc)?;
        named::make_room(&mut self.windows, role.at_window(), self.alloc)
    }

    /// Takes an action, with the role of its event.
    pub fn take(&mut self, role: &Role<'_>, now: Now)
        requires room { HasRoomOf self.old (said_by role.now) }
        ensures { (actions : List Action) (a : Action) → LatestAre self.old actions
            → IsTold role.now now a → LatestAre self.new (a ∷ actions) }
    {
        newest::put(&mut self.steps, role.step(), now.event);
        newest::put(&mut self.blocking, role.blocking(), now.event);
        newest::put(&mut self.deferred, role.deferred(), now.event);
        newest::put(&mut self.scripts, role.deferred(), role.script());
        newest::put(&mut self.ticks, role.tick(), now.event);
        newest::put(&mut self.replies, role.reply(), now.event);
        named::put(&mut self.elements, role.at_element(), now.action);
        named::put(&mut self.windows, role.at_window(), now.action);
        groups::put(&mut self.groups, role.handler());
        lists::put(&mut self.asyncs, role.async_run(), now);
        lists::put(&mut self.statics, role.static_load(), now);
        lists::put(&mut self.runs, role.handler(), now);
    }
}
