//! The sources of an exclusive-or come home.
ghost use Rattle.std.specs.Prelude.{◌≡◌, ◌<◌, [], length, vec_capacity};
ghost use Rattle.buf_pool.specs.Pool.{IsLease};
ghost use Rattle.eng_clients.specs.Desk.{desk_at};
ghost use Rattle.eng_clients.specs.Scattered.{SourcesOut, SourcesHome};

use crate::client::Client;
use crate::clients::Clients;
use buf_pool::Reserve;
use eng_job::Source;

impl Client {
    // The sources come home, the last first.
    fn scatter(&self, pool: &mut Reserve, sources: &mut Vec<Source>)
        requires lease { IsLease pool.old self.now.lease }
        requires out { SourcesOut pool.old self.now.lease sources.old.items }
        ensures home { SourcesHome pool.old self.now.lease sources.old.items pool.new }
        ensures empty { sources.new.items ≡ [] }
        ensures room { vec_capacity sources.new ≡ vec_capacity sources.old }
    {
        while let Some(source) = sources.pop() {
            self.put(source.at, source.buffer, pool);
        }
    }
}

impl Clients {
    /// The sources of a client's node come home.
    pub fn scatter(&self, client: u32, pool: &mut Reserve, sources: &mut Vec<Source>)
        requires client { client < length self.now }
        requires lease { IsLease pool.old (desk_at self.now client).lease }
        requires out { SourcesOut pool.old (desk_at self.now client).lease sources.old.items }
        ensures home { SourcesHome pool.old (desk_at self.now client).lease sources.old.items
            pool.new }
        ensures empty { sources.new.items ≡ [] }
        ensures room { vec_capacity sources.new ≡ vec_capacity sources.old }
    {
        self.list[client as usize].scatter(pool, sources);
    }
}
