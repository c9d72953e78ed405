//! What a session has seen.

ghost use Rattle.std.specs.Prelude.{◌≡◌, length, reverse, option_map, IfSome};
ghost use Rattle.dm_event.specs.Entries.{commit_vector};
ghost use Rattle.dm_model.specs.Acts.{entry_at};
ghost use Rattle.dm_model.specs.Legal.{Legal};
ghost use Rattle.dm_model.specs.Runs.{last_begin};
ghost use Rattle.dm_model.specs.Sessions.{answered_by, session_vector};
ghost use Rattle.dm_steps.specs.Adding.{join_one};
ghost use Rattle.dm_plain.specs.Adding.{said_vector};

use crate::acts::entry_at;
use crate::running::last_begin;
use dm_event::{Said, Schema, SiteNo, Step, Vector};

/// The commit vector of the entry with this origin and number.
fn committed_vector(schema: &Schema, steps: &[Step], site: SiteNo, seq: u64) -> Option<Vector>
    requires { Legal schema.now steps.now }
    ensures exact { result ≡ option_map commit_vector (entry_at site seq (reverse steps.now)) }
    ensures sites { IfSome result (λ vector. length vector ≡ schema.now.sites) }
{
    match entry_at(steps, site, seq) {
        Some(entry) => Some(entry.commit_vector()),
        None => None,
    }
}

/// The vector of the session's last Begin.
fn read_vector(schema: &Schema, steps: &[Step], session: u32) -> Option<Vector>
    requires { Legal schema.now steps.now }
    ensures exact { result ≡ last_begin session (reverse steps.now) }
    ensures sites { IfSome result (λ vector. length vector ≡ schema.now.sites) }
{
    last_begin(steps, session)
}

/// The vector that an outcome adds to what the session has seen.
fn said_vector(schema: &Schema, steps: &[Step], session: u32, said: Said) -> Option<Vector>
    requires { Legal schema.now steps.now }
    ensures exact { result ≡ said_vector session said (reverse steps.now) }
    ensures sites { IfSome result (λ vector. length vector ≡ schema.now.sites) }
{
    match said {
        Said::Committed { site, seq } => committed_vector(schema, steps, site, seq),
        Said::Read { .. } => read_vector(schema, steps, session),
        _ => None,
    }
}

/// The vector that the step adds to what the session has seen.
fn answered_by(schema: &Schema, step: &Step, before: &[Step], session: u32) -> Option<Vector>
    requires { Legal schema.now before.now }
    ensures exact { result ≡ answered_by session step.now (reverse before.now) }
    ensures sites { IfSome result (λ vector. length vector ≡ schema.now.sites) }
{
    match step {
        Step::Reply {
            session: of,
            said,
            ..
        } if *of == session => said_vector(schema, before, session, *said),
        _ => None,
    }
}

/// The maximum with one vector more, if there is one.
pub fn join_one(mut seen: Vector, more: Option<Vector>) -> Vector
    requires { IfSome more (λ vector. length seen ≡ length vector) }
    ensures { result ≡ join_one seen more }
{
    if let Some(vector) = more {
        seen.join(&vector);
    }
    seen
}

/// The maximum of the commit vectors and begin vectors of what the session was answered.
pub fn session_vector(schema: &Schema, steps: &[Step], session: u32) -> Vector
    requires { Legal schema.now steps.now }
    ensures { result ≡ session_vector schema.now.sites (reverse steps.now) session }
{
    let mut seen = Vector::zeros(schema.sites());
    for i in 0..steps.len() {
        seen = join_one(seen, answered_by(schema, &steps[i], &steps[..i], session));
    }
    seen
}
