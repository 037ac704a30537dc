// A text checked, or loaded into a plan.

ghost use Rattle.std.specs.Prelude.{◌≡◌, ℕ, ◌≤◌, length, vec_capacity, OnOk};
ghost use Rattle.plan.specs.Drafts.{drafted};
ghost use Rattle.plan_file.specs.File.{filed, Kept, PlaceWithin};
ghost use Rattle.load.specs.Loading.{loaded, verdict, Loads};
ghost use Rattle.load.specs.Law.{ExactlyObeying, AcceptsObeying};

use crate::loader::Loader;
use plan::{MOST_BYTES, Name, Plan};
use plan_file::read_text;
use refusals::LoadFault;

// The same bytes, in memory that is there already.
fn copy_text(to: &mut Vec<u8>, text: &[u8])
    requires { (65536 ≤ vec_capacity to.old) × (length text.now ≤ 65536) }
    ensures same { to.new.items ≡ text.now }
    ensures room { 65536 ≤ vec_capacity to.new }
{
    to.clear();
    for b in text {
        to.push_reserved(*b);
    }
}

impl Loader {
    // The text into the loader's own tables, where it is neither empty nor too large.
    fn read(&mut self, text: &[u8]) -> Result<Name, LoadFault>
        ensures told { filed result (drafted self.new.tables) ≡ loaded text.now }
        ensures kept { Kept text.now result (drafted self.new.tables) }
        ensures within { PlaceWithin (length text.now) result }
        ensures small { OnOk result (length text.now ≤ 65536) }
        ensures near { PlaceWithin 65536 result }
    {
        if text.len() == 0 {
            return Err(LoadFault::NoBytes);
        }
        if text.len() > MOST_BYTES {
            return Err(LoadFault::TooManyBytes);
        }
        read_text(text, &mut self.tables)
    }

    // A check, by the definition of a load.
    fn check_whole(&mut self, text: &[u8]) -> Result<(), LoadFault>
        ensures told { result ≡ verdict (loaded text.now) }
        ensures within { PlaceWithin (length text.now) result }
        ensures near { PlaceWithin 65536 result }
    {
        let _ = self.read(text)?;
        Ok(())
    }

    // A load, by its definition.
    fn load_whole(&mut self, plan: &mut Plan, text: &[u8]) -> Result<(), LoadFault>
        ensures loads { Loads text.now plan.old result plan.new }
        ensures within { PlaceWithin (length text.now) result }
    {
        let title = self.read(text)?;
        copy_text(&mut self.text, text);
        std::mem::swap(&mut self.tables, &mut plan.tables);
        std::mem::swap(&mut self.text, &mut plan.text);
        plan.title = title;
        Ok(())
    }

    // Whether the text is a plan, or the fault for which a load would refuse it.
    pub fn check(&mut self, text: &[u8]) -> Result<(), LoadFault>
        ensures exactly { AcceptsObeying text.now result }
        ensures told { result ≡ verdict (loaded text.now) }
        ensures within { PlaceWithin (length text.now) result }
        ensures near { PlaceWithin 65536 result }
    {
        self.check_whole(text)
    }

    // The plan of the text in place of the plan that was there; or a refusal, and the plan stays as it is.
    pub fn load(&mut self, plan: &mut Plan, text: &[u8]) -> Result<(), LoadFault>
        ensures exactly { ExactlyObeying text.now result plan.new }
        ensures loads { Loads text.now plan.old result plan.new }
        ensures within { PlaceWithin (length text.now) result }
    {
        self.load_whole(plan, text)
    }
}
