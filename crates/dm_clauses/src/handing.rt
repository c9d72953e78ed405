//! Whether a step of a hand-over may come, and why not.

ghost use Rattle.std.specs.Prelude.{◌≡◌, ◌<◌, ◌^◌, ◌==◌, ◌&&◌, ◌/◌, true, false, find};
ghost use Rattle.std.specs.List.{list_any};
ghost use Rattle.std.specs.Option.{option_map_or};
ghost use Rattle.dm_event.specs.Layout.{is_part};
ghost use Rattle.dm_model.specs.Allowed.{wants_part, ask_clauses, release_clauses, grant_clauses, settle_clauses, runner};
ghost use Rattle.dm_model.specs.Attempts.{routed};
ghost use Rattle.dm_model.specs.Choices.{parts_in_order};
ghost use Rattle.dm_model.specs.Clauses.{first};
ghost use Rattle.dm_model.specs.Placings.{placing};
ghost use Rattle.dm_model.specs.Tests.{is_among, same_choice};
ghost use Rattle.dm_clauses.specs.Judging.{epoch_now};

use crate::rows::{ask_refusal, grant_refusal, release_refusal, settle_refusal};
use dm_event::{Choice, Part, Placing, Schema, SiteNo, TxnId, Vector, Want, Why};
use dm_told::{Told, has_part, routed, stands_routed};

/// Whether the Route wants a hand-over of the partition.
fn wants_part(schema: &Schema, part: Part, choice: Choice, want: &Want) -> bool
    ensures { result ≡ wants_part schema.now part choice want.now }
{
    match want {
        Want::Txn(keys) => match choice {
            Choice::Best | Choice::Hand => has_part(schema, keys.as_slice(), part),
            Choice::Master | Choice::Reader => false,
        },
        Want::Place(of) => *of == part,
        Want::Restart => false,
    }
}

/// Whether the attempt stands routed to the site and wants the partition there.
fn is_wanted<T: Told>(told: &T, part: Part, to: SiteNo, txn: TxnId) -> bool
    ensures { result ≡ option_map_or (λ r. (r.site == to) && wants_part (T.layout told.now) part r.choice r.want) (routed txn (T.past told.now)) false }
{
    match (routed(told, txn), told.last_want(txn.session)) {
        (Some(routing), Some(want)) => {
            routing.site == to && wants_part(told.schema(), part, routing.choice, want)
        }
        _ => false,
    }
}

/// The placing, of which one more hand-over can be counted.
fn placing_in<T: Told>(told: &T, part: Part) -> Placing
    requires { is_part (T.layout told.now) part ≡ true }
    ensures exact { result ≡ placing (T.layout told.now) (T.past told.now) part }
    ensures few { epoch_now result < 2 ^ 63 }
{
    told.is_legal();
    told.placing(part)
}

pub(crate) fn ask_why<T: Told>(
    told: &T,
    part: Part,
    epoch: u64,
    to: SiteNo,
    txn: TxnId,
) -> Option<Why>
    requires { is_part (T.layout told.now) part ≡ true }
    ensures { result ≡ first (ask_clauses (T.layout told.now) (T.past told.now) part epoch to txn) }
{
    ask_refusal(
        stands_routed(told, txn),
        is_wanted(told, part, to, txn),
        told.placing(part),
        part,
        epoch,
        to,
    )
}

pub(crate) fn release_why<T: Told>(
    told: &T,
    site: SiteNo,
    part: Part,
    epoch: u64,
    to: SiteNo,
    vector: &Vector,
) -> Option<Why>
    requires { is_part (T.layout told.now) part ≡ true }
    ensures { result ≡ first (release_clauses (T.layout told.now) (T.past told.now) site part epoch to vector.now) }
{
    release_refusal(
        told.placing(part),
        told.is_down(site),
        told.runner(site, part),
        told.vector(site),
        site,
        epoch,
        to,
        vector,
    )
}

pub(crate) fn grant_why<T: Told>(
    told: &T,
    site: SiteNo,
    part: Part,
    epoch: u64,
    vector: &Vector,
) -> Option<Why>
    requires { is_part (T.layout told.now) part ≡ true }
    ensures { result ≡ first (grant_clauses (T.layout told.now) (T.past told.now) site part epoch vector.now) }
{
    let own = told.vector(site);
    grant_refusal(
        placing_in(told, part),
        told.is_down(site),
        vector.first_above(&own),
        site,
        epoch,
        vector,
    )
}

pub(crate) fn settle_why<T: Told>(told: &T, part: Part, epoch: u64) -> Option<Why>
    requires { is_part (T.layout told.now) part ≡ true }
    ensures { result ≡ first (settle_clauses (T.layout told.now) (T.past told.now) part epoch) }
{
    settle_refusal(told.placing(part), epoch)
}
