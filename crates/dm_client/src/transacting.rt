//! Transactions, each of which runs whole at one site.

ghost use Rattle.std.specs.List.{list_all};
ghost use Rattle.std.specs.Prelude.{ℕ, ◌≡◌, ◌≤◌, ◌<◌, ◌+◌, ◌||◌, Some, None, length, reverse, IfOk, IsTrue, OnErr};
ghost use Rattle.dm_answers.specs.declared.item.Item.TheVariants.{Txn};
ghost use Rattle.dm_client.specs.Client.{Answered, IsSameOne, IsSent, untold};
ghost use Rattle.dm_event.specs.declared.actor.Actor.TheVariants.{Session as SessionActor};
ghost use Rattle.dm_event.specs.declared.attempt.AttemptState.TheVariants.{Unrouted};
ghost use Rattle.dm_event.specs.declared.limits.TheConstants.{MAX_OPS};
ghost use Rattle.dm_event.specs.declared.step.Want.TheVariants.{Txn as TxnWant};
ghost use Rattle.dm_client.specs.Moves.{MayMove};
ghost use Rattle.dm_invariant.specs.Running.{RoutedFor};
ghost use Rattle.dm_event.specs.declared.step.Choice.TheVariants.{Best, Hand};
ghost use Rattle.dm_model.specs.Tests.{is_among, same_choice};
ghost use Rattle.dm_invariant.specs.Stations.{IsPassOf, Rested, Went, layout_of};
ghost use Rattle.dm_model.specs.Attempts.{state};
ghost use Rattle.dm_model.specs.Choices.{parts_of};
ghost use Rattle.dm_model.specs.Bodies.{first_undeclared};
ghost use Rattle.dm_model.specs.Rows.{may_route};
ghost use Rattle.dm_model.specs.Shape.{is_op, is_want};
ghost use Rattle.dm_session.specs.Sitting.{Between, IsCounted, Same, Sent};
ghost use Rattle.dm_sites.specs.Telling.{CameAs, IsBody};

use crate::bringing::bring_all;
use crate::shared::Shared;
use dm_body::first_undeclared;
use dm_chronicle::Named;
use dm_clauses::parts_of;
use dm_core::CorePass;
use dm_event::{
    Body, Cause, Choice, Key, Keys, NoMemory, PartSet, Said, SiteNo, TxnId, Vector, Want,
};
use dm_logdisk::LogDisk;
use dm_session::Session;
use dm_sites::{Came, Gate, Point, Told, bare};
use dm_table::{Look, Taken, Verdict};
use std::sync::Wait;

/// Which site a caller expects of a Route that a turn decides.
const ANY: SiteNo = 1;

/// Answers the session's next item, a transaction. After an attempt that was sent away or dropped it is routed again.
pub fn transact<D: LogDisk + Drop, N: Named, G: Gate, R: Wait>(
    shared: &Shared<D, N>,
    rt: &R,
    gate: &G,
    session: Session<N>,
    body: &Body,
) -> (Session<N>, Told)
    requires schema { layout_of session.pass ≡ shared.now.layout }
    requires counted { IsCounted session }
    requires unrouted { state session.id (reverse session.pass.seen) ≡ Unrouted }
    requires declared { IsTrue (is_want (layout_of session.pass) (TxnWant body.now.declared)) }
    requires few { length body.now.ops ≤ MAX_OPS }
    requires keys { IsTrue (list_all (is_op (layout_of session.pass)) body.now.ops) }
    ensures { Answered (Txn body.now) result.1 session result.0 }
{
    if let Some(key) = first_undeclared(body) {
        return refuse_undeclared(shared, rt, session, body, key);
    }
    let mut session = session;
    let mut last = None;
    for _ in rt.forever() {
        let (next, came) = attempt(shared, rt, gate, session, body, last);
        session = next;
        match came {
            Came::Say { told } => {
                session.reply(rt, &shared.sites.chron, told.said);
                return (session, told);
            }
            Came::Again { txn } => last = Some(txn),
        }
    }
    unreachable!()
}

/// The body writes a key that it doesn't declare. It isn't routed.
fn refuse_undeclared<D: LogDisk + Drop, N: Named, R: Wait>(
    shared: &Shared<D, N>,
    rt: &R,
    session: Session<N>,
    body: &Body,
    key: Key,
) -> (Session<N>, Told)
    requires counted { IsCounted session }
    requires unrouted { state session.id (reverse session.pass.seen) ≡ Unrouted }
    requires undeclared { Some key ≡ first_undeclared body.now.declared body.now.ops }
    requires keys { IsTrue (list_all (is_op (layout_of session.pass)) body.now.ops) }
    ensures { Answered (Txn body.now) result.1 session result.0 }
{
    let mut session = session;
    let said = Said::Refused(Cause::Undeclared { key });
    session.reply(rt, &shared.sites.chron, said);
    (session, bare(shared.sites.alloc, said, None))
}

/// One attempt: the transaction is routed, what it writes is brought to its site, and it runs there.
fn attempt<D: LogDisk + Drop, N: Named, G: Gate, R: Wait>(
    shared: &Shared<D, N>,
    rt: &R,
    gate: &G,
    session: Session<N>,
    body: &Body,
    last: Option<TxnId>,
) -> (Session<N>, Came)
    requires schema { layout_of session.pass ≡ shared.now.layout }
    requires counted { IsCounted session }
    requires may { IsTrue (may_route (state session.id (reverse session.pass.seen))) }
    requires fits { IsBody (layout_of session.pass) body.now }
    ensures same { IsSameOne session result.0 }
    ensures came { CameAs session.id (session.count + 1) (Txn body.now) session.vector last session.pass result.0.pass result.1 }
{
    if body.declared.as_slice().is_empty() {
        return run_reader(shared, rt, gate, session, body, last);
    }
    let parts = parts_of(&shared.sites.schema, &body.declared);
    let Ok(look) = shared.table.look(rt, parts) else {
        return too_little(shared, session, last);
    };
    match look.verdict() {
        Verdict::Agreed(site) => run_agreed(shared, rt, gate, session, body, last, look, site),
        Verdict::Mixed { .. } | Verdict::Unsettled(_) => {
            drop(look);
            run_moved(shared, rt, gate, session, body, last, parts)
        }
    }
}

/// There is too little memory to route the transaction.
fn too_little<D: LogDisk + Drop, N: Named>(
    shared: &Shared<D, N>,
    session: Session<N>,
    last: Option<TxnId>,
) -> (Session<N>, Came)
    ensures session { result.0 ≡ session }
    ensures came { result.1 ≡ untold last }
{
    let told = bare(shared.sites.alloc, Said::Refused(Cause::Memory), last);
    (session, Came::Say { told })
}

/// Routes the transaction. The given pair is what is expected.
fn route<D: LogDisk + Drop, N: Named, R: Wait>(
    shared: &Shared<D, N>,
    rt: &R,
    session: &mut Session<N>,
    body: &Body,
    site: SiteNo,
    choice: Choice,
) -> Result<TxnId, NoMemory>
    requires counted { IsCounted session.old }
    requires may { IsTrue (may_route (state session.old.id (reverse session.old.pass.seen))) }
    requires fits { IsTrue (is_want (layout_of session.old.pass) (TxnWant body.now.declared)) }
    ensures same { Same session.old session.new }
    ensures ok { IfOk result (λ txn. Sent session.old (TxnWant body.now.declared) site txn session.new) }
    ensures err { OnErr result (Rested (SessionActor session.old.id) session.old.pass session.new.pass) }
{
    let keys = body.declared.try_clone()?;
    session.route(rt, &shared.sites.chron, Want::Txn(keys), site, choice)
}

/// A transaction that declares no key goes where the reader's choice sends it.
fn run_reader<D: LogDisk + Drop, N: Named, G: Gate, R: Wait>(
    shared: &Shared<D, N>,
    rt: &R,
    gate: &G,
    session: Session<N>,
    body: &Body,
    last: Option<TxnId>,
) -> (Session<N>, Came)
    requires schema { layout_of session.pass ≡ shared.now.layout }
    requires counted { IsCounted session }
    requires may { IsTrue (may_route (state session.id (reverse session.pass.seen))) }
    requires fits { IsBody (layout_of session.pass) body.now }
    ensures same { IsSameOne session result.0 }
    ensures came { CameAs session.id (session.count + 1) (Txn body.now) session.vector last session.pass result.0.pass result.1 }
{
    let mut session = session;
    match route(shared, rt, &mut session, body, ANY, Choice::Reader) {
        Ok(txn) => run_sent(shared, rt, gate, session, body, txn),
        Err(_) => too_little(shared, session, last),
    }
}

/// Where one site masters all that the transaction declares it goes there: nobody asks for any of it while the entries are held.
fn run_agreed<D: LogDisk + Drop, N: Named, G: Gate, R: Wait>(
    shared: &Shared<D, N>,
    rt: &R,
    gate: &G,
    session: Session<N>,
    body: &Body,
    last: Option<TxnId>,
    look: Look<'_>,
    site: SiteNo,
) -> (Session<N>, Came)
    requires schema { layout_of session.pass ≡ shared.now.layout }
    requires counted { IsCounted session }
    requires may { IsTrue (may_route (state session.id (reverse session.pass.seen))) }
    requires fits { IsBody (layout_of session.pass) body.now }
    ensures same { IsSameOne session result.0 }
    ensures came { CameAs session.id (session.count + 1) (Txn body.now) session.vector last session.pass result.0.pass result.1 }
{
    let mut session = session;
    match route(shared, rt, &mut session, body, site, Choice::Master) {
        Ok(txn) => {
            gate.at(rt, Point::Routing, Some(txn));
            drop(look);
            run_sent(shared, rt, gate, session, body, txn)
        }
        Err(_) => too_little(shared, session, last),
    }
}

/// Else it takes the entries, is routed to where the scores send it, unless all is settled at one site by now, and has each partition
/// brought there.
fn run_moved<D: LogDisk + Drop, N: Named, G: Gate, R: Wait>(
    shared: &Shared<D, N>,
    rt: &R,
    gate: &G,
    session: Session<N>,
    body: &Body,
    last: Option<TxnId>,
    parts: PartSet,
) -> (Session<N>, Came)
    requires schema { layout_of session.pass ≡ shared.now.layout }
    requires counted { IsCounted session }
    requires may { IsTrue (may_route (state session.id (reverse session.pass.seen))) }
    requires fits { IsBody (layout_of session.pass) body.now }
    requires parts { parts ≡ parts_of shared.now.layout body.now.declared }
    requires there { (p : ℕ) → IsTrue (is_among parts p) → p < length shared.now.layout.masters }
    ensures same { IsSameOne session result.0 }
    ensures came { CameAs session.id (session.count + 1) (Txn body.now) session.vector last session.pass result.0.pass result.1 }
{
    let Ok(taken) = shared.table.take(rt, parts) else {
        return too_little(shared, session, last);
    };
    let mut session = session;
    match route(shared, rt, &mut session, body, ANY, Choice::Best) {
        Ok(txn) => bring_and_run(shared, rt, gate, session, body, txn, taken, parts),
        Err(_) => too_little(shared, session, last),
    }
}

/// Runs a routed attempt at its site.
fn run_sent<D: LogDisk + Drop, N: Named, G: Gate, R: Wait>(
    shared: &Shared<D, N>,
    rt: &R,
    gate: &G,
    session: Session<N>,
    body: &Body,
    txn: TxnId,
) -> (Session<N>, Came)
    requires schema { layout_of session.pass ≡ shared.now.layout }
    requires sent { IsSent txn (TxnWant body.now.declared) session }
    requires fits { IsBody (layout_of session.pass) body.now }
    ensures same { IsSameOne session result.0 }
    ensures came { CameAs txn.session txn.number (Txn body.now) session.vector (Some txn) session.pass result.0.pass result.1 }
{
    let (to, _) = session.sent();
    let min = session.vector();
    let (rest, mut own) = session.part();
    let came = shared.sites.run_at(rt, gate, &mut own, txn, to, body, &min);
    (rest.back(own), came)
}

/// Whether a Route by this choice wants partitions to move.
fn wants_moves(by: Choice) -> bool
    ensures { result ≡ (same_choice by Best || same_choice by Hand) }
{
    matches!(by, Choice::Best | Choice::Hand)
}

/// Brings each partition to the site of a routed attempt, and runs it there.
fn bring_and_run<D: LogDisk + Drop, N: Named, G: Gate, R: Wait>(
    shared: &Shared<D, N>,
    rt: &R,
    gate: &G,
    session: Session<N>,
    body: &Body,
    txn: TxnId,
    taken: Taken<'_, N>,
    parts: PartSet,
) -> (Session<N>, Came)
    requires schema { layout_of session.pass ≡ shared.now.layout }
    requires sent { IsSent txn (TxnWant body.now.declared) session }
    requires fits { IsBody (layout_of session.pass) body.now }
    requires parts { parts ≡ parts_of shared.now.layout body.now.declared }
    requires there { (p : ℕ) → IsTrue (is_among parts p) → p < length shared.now.layout.masters }
    ensures same { IsSameOne session result.0 }
    ensures came { CameAs txn.session txn.number (Txn body.now) session.vector (Some txn) session.pass result.0.pass result.1 }
{
    let (to, by) = session.sent();
    let min = session.vector();
    let (rest, mut own) = session.part();
    let wanted = wants_moves(by);
    let came = run_brought(
        shared, rt, gate, &mut own, txn, to, body, &min, taken, &parts, wanted,
    );
    (rest.back(own), came)
}

/// Brings each partition to the site, lets the entries go, and runs the attempt there.
fn run_brought<D: LogDisk + Drop, N: Named, G: Gate, R: Wait>(
    shared: &Shared<D, N>,
    rt: &R,
    gate: &G,
    own: &mut CorePass,
    txn: TxnId,
    to: SiteNo,
    body: &Body,
    min: &Vector,
    mut taken: Taken<'_, N>,
    parts: &PartSet,
    wanted: bool,
) -> Came
    requires own { IsPassOf N.table txn.session own.old }
    requires schema { layout_of own.old ≡ shared.now.layout }
    requires routed { RoutedFor txn (TxnWant body.now.declared) min.now to own.old }
    requires fits { IsBody (layout_of own.old) body.now }
    requires parts { MayMove txn to parts.now wanted own.old }
    ensures went { Went own.old own.new }
    ensures came { CameAs txn.session txn.number (Txn body.now) min.now (Some txn) own.old own.new result }
    ensures between { Between txn.session own.old.seen own.new.seen }
{
    let sites = &shared.sites;
    let brought = bring_all(sites, rt, own, &mut taken, txn, to, parts, wanted);
    drop(taken);
    match brought {
        Ok(()) => sites.run_at(rt, gate, own, txn, to, body, min),
        Err(stop) => sites.stopped(stop, txn),
    }
}
