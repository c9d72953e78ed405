//! What a kept history tells.

ghost use Rattle.dm_kept.specs.Ledger.{past};

use super::Kept;
use crate::{reading, restarting, running};
use dm_event::{
    Attempt, Entry, Found, Key, Part, Placing, Schema, SiteNo, TxnId, Value, Vector, Want,
};
use dm_placement::Window;
use dm_store::reads_of_histories;
use dm_told::{Routing, Told};

impl Told for Kept {
    ghost layout = { λ k. k.layout };

    ghost past = { λ k. past k };

    fn is_legal(&self) {
        // A length tells that there are few.
        let _few = self.steps.len();
    }

    fn schema(&self) -> &Schema {
        &self.schema
    }

    fn window(&self) -> &Window {
        &self.window
    }

    fn replies(&self, session: u32) -> u64 {
        u64::from(self.states.replies(session))
    }

    fn routes(&self, session: u32) -> u64 {
        self.is_legal();
        self.numbers.session(session).routes
    }

    fn attempt(&self, session: u32) -> Attempt {
        self.states.attempt(session)
    }

    fn last_routing(&self, session: u32) -> Option<Routing> {
        reading::routing_at(&self.steps, self.index.route(session), session)
    }

    fn last_want(&self, session: u32) -> Option<&Want> {
        reading::want_at(&self.steps, self.index.route(session), session)
    }

    fn session_vector(&self, session: u32) -> Vector {
        self.numbers.session(session).seen
    }

    fn last_settled(&self, session: u32, _part: Part, _site: SiteNo) -> Option<u64> {
        self.aim(session)?.settled
    }

    fn stood_settled(&self, session: u32, part: Part, site: SiteNo, epoch: u64) -> bool {
        // An answer names the last epoch; for an earlier one all steps are looked at.
        if self.last_settled(session, part, site) == Some(epoch) {
            return true;
        }
        dm_plain::stood_settled(&self.schema, &self.steps, session, part, site, epoch)
    }

    fn restarted_since(&self, session: u32, _site: SiteNo) -> bool {
        match self.aim(session) {
            Some(aim) => aim.restarted,
            None => false,
        }
    }

    fn declared(&self, txn: TxnId) -> &[Key] {
        self.is_legal();
        self.last_keys(txn.session)
    }

    fn run_site(&self, txn: TxnId) -> Option<SiteNo> {
        running::site_told(self.schema.sites(), self.states.attempt(txn.session), txn)
    }

    fn begin_vector(&self, txn: TxnId) -> Option<Vector> {
        self.is_legal();
        self.numbers.session(txn.session).begin
    }

    fn holder(&self, site: SiteNo, keys: &[Key]) -> Option<(TxnId, Key)> {
        running::holder(self, site, keys)
    }

    fn runner(&self, site: SiteNo, part: Part) -> Option<TxnId> {
        running::runner(self, site, part)
    }

    fn placing(&self, part: Part) -> Placing {
        self.states.placing(part)
    }

    fn is_down(&self, site: SiteNo) -> bool {
        self.numbers.site(site).down
    }

    fn vector(&self, site: SiteNo) -> Vector {
        self.numbers.site(site).vector
    }

    fn reached(&self, site: SiteNo, origin: SiteNo) -> u64 {
        self.is_legal();
        self.numbers.site(site).vector.get(origin)
    }

    fn value(&self, key: Key, at: &Vector) -> Value {
        reads_of_histories();
        self.store.read(key, at)
    }

    fn entry(&self, origin: SiteNo, seq: u64) -> Option<&Entry> {
        reading::entry_at(&self.steps, self.index.entry(origin, seq))
    }

    fn entry_count(&self, origin: SiteNo) -> u64 {
        // A site has all of its own.
        self.reached(origin, origin)
    }

    fn entry_count_with_kept(&self, site: SiteNo, found: Found) -> u64 {
        restarting::entry_count_with_kept(self, site, found)
    }

    fn floor_with_kept(&self, site: SiteNo, found: Found) -> Vector {
        restarting::floor_with_kept(self, site, found)
    }

    fn unclosed_with_kept(
        &self,
        site: SiteNo,
        vector: &Vector,
        found: Found,
    ) -> Option<(SiteNo, u64)> {
        restarting::unclosed_with_kept(self, site, vector, found)
    }
}
