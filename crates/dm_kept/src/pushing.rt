//! What a further step finds in the steps before it, and what it installs.

ghost use Rattle.std.specs.Prelude.{◌≡◌, ◌++◌, ◌+◌, ◌≤◌, IfSome, length, map, option_copied, option_map, option_to_list, reverse};
ghost use Rattle.dm_event.specs.declared.step.Step.{Step};
ghost use Rattle.dm_kept.specs.Finding.{Finds};
ghost use Rattle.dm_kept.specs.Roomy.{MayInstall};
ghost use Rattle.dm_model.specs.Acts.{entry_at};
ghost use Rattle.dm_model.specs.Attempts.{last_routing};
ghost use Rattle.dm_model.specs.Doubts.{pending_at};
ghost use Rattle.dm_steps.specs.Naming.{named_in};
ghost use Rattle.dm_steps.specs.Pendings.{kept_of};
ghost use Rattle.dm_store.specs.Histories.{past_of};

use crate::reading;
use dm_event::{Entry, Found, Pending, Said, SiteNo, Step, Want};
use dm_index::Index;
use dm_store::Store;

/// The pending step of the site's last Doubt.
fn pending_at<'a>(steps: &'a [Step], index: &Index, site: SiteNo) -> Option<&'a Pending>
    requires { Finds steps.now index.now }
    ensures { option_copied result ≡ pending_at site (reverse steps.now) }
{
    reading::pending_at(steps, index.doubt(site), site)
}

fn entry_at<'a>(steps: &'a [Step], index: &Index, origin: SiteNo, seq: u64) -> Option<&'a Entry>
    requires { Finds steps.now index.now }
    ensures { option_copied result ≡ entry_at origin seq (reverse steps.now) }
{
    reading::entry_at(steps, index.entry(origin, seq))
}

/// What the session's last Route wants.
pub(crate) fn last_want<'a>(steps: &'a [Step], index: &Index, session: u32) -> Option<&'a Want>
    requires { Finds steps.now index.now }
    ensures { option_copied result ≡ option_map (λ r. r.want) (last_routing session (reverse steps.now)) }
{
    reading::want_at(steps, index.route(session), session)
}

/// The pending step that the step keeps, if it is a Restart that keeps one.
pub(crate) fn kept_of<'a>(steps: &'a [Step], index: &Index, step: &Step) -> Option<&'a Pending>
    requires { Finds steps.now index.now }
    ensures { option_copied result ≡ kept_of step.now (reverse steps.now) }
{
    match step {
        Step::Restart {
            site,
            found: Found::Kept,
            ..
        } => pending_at(steps, index, *site),
        _ => None,
    }
}

/// The entry that the step names, if it is a Reply.
pub(crate) fn named_in<'a>(steps: &'a [Step], index: &Index, step: &Step) -> Option<&'a Entry>
    requires { Finds steps.now index.now }
    ensures { option_copied result ≡ named_in step.now (reverse steps.now) }
{
    match step {
        Step::Reply {
            said: Said::Committed { site, seq },
            ..
        } => entry_at(steps, index, *site, *seq),
        _ => None,
    }
}

/// Installs the entry, if there is one.
pub(crate) fn install(store: &mut Store, entry: Option<&Entry>)
    requires { IfSome (option_copied entry) (MayInstall store.old) }
    ensures installed { store.new.installed ≡ store.old.installed ++ map past_of (option_to_list (option_copied entry.entry)) }
    ensures layout { store.new.layout ≡ store.old.layout }
    ensures known { store.new.known ≡ store.old.known }
    ensures spare { store.new.spare + length (option_to_list (option_copied entry.entry)) ≡ store.old.spare }
{
    if let Some(entry) = entry {
        store.install(entry.origin, entry.seq, &entry.writes);
    }
}
