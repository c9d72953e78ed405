//! A legal history as the plain list of its steps.

ghost use Rattle.std.specs.Prelude.{◌≡◌, reverse};
ghost use Rattle.dm_model.specs.Choices.{window as window_of};
ghost use Rattle.dm_model.specs.Legal.{Legal};

use dm_event::{
    Attempt, Entry, Found, Key, Part, Placing, Schema, SiteNo, Step, TxnId, Value, Vector, Want,
};
use dm_placement::Window;
use dm_told::{Routing, Told};
use std::marker::Model;

/// A legal history as the plain list of its steps, the earliest first. Each answer goes over the list.
#[derive(Drop)]
pub struct Listed<'a> {
    schema: &'a Schema,
    steps: &'a [Step],
    /// What the last Routes with declared keys wanted.
    window: &'a Window,
}

impl<'a> Model for Listed<'a> {
    ghost use Rattle.dm_listed.specs.Tales.{Tale};

    ghost Value = { Tale };

    ghost use Rattle.dm_listed.specs.ListedFields.{tale_of, IsListed};

    ghost view = { tale_of };

    ghost invariant = { IsListed };
}

impl<'a> Listed<'a> {
    pub fn new(schema: &'a Schema, steps: &'a [Step], window: &'a Window) -> Listed<'a>
        requires legal { Legal schema.now steps.now }
        requires window { window.now ≡ reverse (window_of schema.now (reverse steps.now)) }
        ensures layout { result.layout ≡ schema.now }
        ensures past { result.past ≡ reverse steps.now }
    {
        Listed {
            schema,
            steps,
            window,
        }
    }
}

impl<'a> Told for Listed<'a> {
    ghost layout = { λ l. l.layout };

    ghost past = { λ l. l.past };

    fn is_legal(&self) {
        // A length tells that there are few.
        let _few = self.steps.len();
    }

    fn schema(&self) -> &Schema {
        self.schema
    }

    fn window(&self) -> &Window {
        self.window
    }

    fn replies(&self, session: u32) -> u64 {
        let _few = self.steps.len();
        dm_plain::replies(self.steps, session)
    }

    fn routes(&self, session: u32) -> u64 {
        let _few = self.steps.len();
        dm_plain::routes(self.steps, session)
    }

    fn attempt(&self, session: u32) -> Attempt {
        dm_plain::attempt(self.steps, session)
    }

    fn last_routing(&self, session: u32) -> Option<Routing> {
        dm_plain::last_routing(self.steps, session)
    }

    fn last_want(&self, session: u32) -> Option<&Want> {
        dm_plain::last_want(self.steps, session)
    }

    fn session_vector(&self, session: u32) -> Vector {
        dm_plain::session_vector(self.schema, self.steps, session)
    }

    fn last_settled(&self, session: u32, part: Part, site: SiteNo) -> Option<u64> {
        dm_plain::last_settled(self.schema, self.steps, session, part, site)
    }

    fn stood_settled(&self, session: u32, part: Part, site: SiteNo, epoch: u64) -> bool {
        dm_plain::stood_settled(self.schema, self.steps, session, part, site, epoch)
    }

    fn restarted_since(&self, session: u32, site: SiteNo) -> bool {
        dm_plain::restarted_since(self.steps, session, site)
    }

    fn declared(&self, txn: TxnId) -> &[Key] {
        dm_plain::declared(self.steps, txn)
    }

    fn run_site(&self, txn: TxnId) -> Option<SiteNo> {
        dm_plain::run_site(self.schema, self.steps, txn)
    }

    fn begin_vector(&self, txn: TxnId) -> Option<Vector> {
        dm_plain::begin_vector(self.steps, txn)
    }

    fn holder(&self, site: SiteNo, keys: &[Key]) -> Option<(TxnId, Key)> {
        dm_plain::holder(self.steps, site, keys)
    }

    fn runner(&self, site: SiteNo, part: Part) -> Option<TxnId> {
        dm_plain::runner(self.schema, self.steps, site, part)
    }

    fn placing(&self, part: Part) -> Placing {
        dm_plain::placing(self.schema, self.steps, part)
    }

    fn is_down(&self, site: SiteNo) -> bool {
        dm_plain::is_down(self.steps, site)
    }

    fn vector(&self, site: SiteNo) -> Vector {
        dm_plain::site_vector(self.schema, self.steps, site)
    }

    fn reached(&self, site: SiteNo, origin: SiteNo) -> u64 {
        dm_plain::reached(self.schema, self.steps, site, origin)
    }

    fn value(&self, key: Key, at: &Vector) -> Value {
        dm_plain::value(self.schema, self.steps, key, at)
    }

    fn entry(&self, origin: SiteNo, seq: u64) -> Option<&Entry> {
        dm_plain::entry_at(self.steps, origin, seq)
    }

    fn entry_count(&self, origin: SiteNo) -> u64 {
        dm_plain::entry_count(self.steps, origin)
    }

    fn entry_count_with_kept(&self, site: SiteNo, found: Found) -> u64 {
        dm_plain::entry_count_with_kept(self.steps, site, found)
    }

    fn floor_with_kept(&self, site: SiteNo, found: Found) -> Vector {
        dm_plain::floor_with_kept(self.schema, self.steps, site, found)
    }

    fn unclosed_with_kept(
        &self,
        site: SiteNo,
        vector: &Vector,
        found: Found,
    ) -> Option<(SiteNo, u64)> {
        dm_plain::unclosed_with_kept(self.steps, site, vector, found)
    }
}
