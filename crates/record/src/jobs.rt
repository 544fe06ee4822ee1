// Starting a job: all checked shards, then pending ones up to the minimum.
ghost use Rattle.std.specs.Prelude.{◌≡◌, ℕ, ◌+◌, ◌≤◌, ◌||◌, List, nat_lt, if◌then◌else◌};
ghost use Rattle.model.specs.Jobs.{tried_in};
ghost use Rattle.model.specs.State.{with_phase};
ghost use Rattle.record.specs.Sound.{Filled, Sound};
ghost use Rattle.record.specs.Fields.{started};
ghost use Rattle.record.specs.Views.{Memory, phase_of, view};

use crate::record::Record;

impl Record {
    // Starts a job, where none is out and there are enough shards for one.
    pub fn try_job(&mut self, minimum: usize)
        requires { self.old.checked_count + self.old.pending_count ≤ 64 }
        ensures becomes { self.new ≡ (if self.old.cached || self.old.job || nat_lt (self.old.checked_count + self.old.pending_count) minimum then self.old else started minimum self.old) }
        ensures job { (width : ℕ) (at : Memory) (c : List ℕ) (slot : ℕ) → Sound width self.old → view at c slot self.new ≡ with_phase (tried_in minimum (phase_of at slot self.old)) (view at c slot self.old) }
        ensures sound { (width : ℕ) → Sound width self.old → Sound width self.new }
        ensures filled { Filled minimum self.old → Filled minimum self.new }
    {
        if self.cached || self.job || self.checked_count + self.pending_count < minimum {
            return;
        }
        self.job = true;
        self.job_checked = self.checked_count;
        self.job_pending = minimum.saturating_sub(self.checked_count);
    }
}
