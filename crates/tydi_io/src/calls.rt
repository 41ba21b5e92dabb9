ghost use Rattle.std.specs.Prelude.{◌≡◌, ◌≤◌, ◌↔◌, IsErr, Contains};
ghost use Rattle.tydi_io.specs.Faults.{Rose, HasCause, one_more, faults_after};

use crate::failed::Failed;
use tydi_base::List;

/// The calls of a store or a sink in memory, numbered from 0, with the numbers of those that are to fail.
#[derive(Debug, Drop)]
pub(crate) struct Calls {
    pub(crate) failing: List<u64>,

    /// The number of the next call.
    pub(crate) next: u64,
    pub(crate) faults: u64,
}

impl Calls {
    pub(crate) fn new(failing: List<u64>) -> Calls
        ensures { result ≡ record { failing = failing; next = 0; faults = 0 } }
    {
        Calls {
            failing,
            next: 0,
            faults: 0,
        }
    }

    /// Counts one call, which fails where it is to.
    pub(crate) fn count(&mut self) -> Result<(), Failed>
        ensures fails { IsErr result ↔ Contains self.old.failing self.old.next }
        ensures cause { HasCause self.old.faults self.new.faults result }
        ensures state { self.new ≡ record self.old {
          next = one_more self.old.next;
          faults = faults_after self.old.faults result;
        } }
    {
        let number = self.next;
        self.next = self.next.saturating_add(1);
        if self.failing.as_slice().contains(&number) {
            return Err(self.fault());
        }
        Ok(())
    }

    /// Counts a failed call.
    pub(crate) fn fault(&mut self) -> Failed
        ensures state { self.new ≡ record self.old { faults = one_more self.old.faults } }
        ensures later { self.old.faults ≤ self.new.faults }
        ensures rose { Rose self.old.faults self.new.faults }
    {
        self.faults = self.faults.saturating_add(1);
        Failed
    }
}
