// The closed state: its tag, and comparisons with it.
ghost use Rattle.std.specs.Prelude.{◌≡◌};
ghost use Rattle.tags.specs.Tags.{rest, Tagged, Compared};
ghost use Rattle.run.specs.Calls.{closed_of, walked_back};

use crate::state::ClosedRun;
use mode::{Mode, retrace};
use refusals::Refusal;
use tags::state::{Allowance, Verdict};
use tags::tag;

impl<M: Mode> ClosedRun<M> {
    // Fills the buffer, whose length is the tag's length; refused, it keeps its bytes.
    pub fn tag(&self, out: &mut [u8]) -> Result<(), Refusal>
        ensures { Tagged (closed_of M.rule M.state self.now) out.old result out.new }
    {
        tag::write(&self.mode, out)
    }

    // The tag is read and the allowance is changed, so they are no value together.
    // Pays one of the allowance and says whether the received bytes are the tag; refused, nothing is paid.
    pub fn compare(&self, received: &[u8], allowance: &mut Allowance) -> Result<Verdict, Refusal>
        ensures { Compared (closed_of M.rule M.state self.now) received.now allowance.old.left result allowance.new.left }
    {
        tag::compare(&self.mode, received, allowance)
    }

    // The mode, walked back over blocks, the last first.
    pub fn walk_back(self, blocks: &[[u8; 16]]) -> M
        ensures { rest M.rule M.state result ≡ walked_back (closed_of M.rule M.state self) blocks.now }
    {
        let ClosedRun { mut mode } = self;
        retrace(&mut mode, blocks);
        mode
    }
}
