//! Whether a wakeup was lost. The reader comes from `world`. The law `no_lost_wakeup` in `laws`
//! says that no wakeup ever is.
ghost use Rattle.std.specs.Prelude.{◌≡◌, ◌<◌, ◌↔◌, IsTrue, length};
ghost use Rattle.sleep_core.specs.LostWakeup.{HasLostWakeup, has_lost_wakeup, oversleeps};
ghost use Rattle.sleep_core.specs.State.{phase_of};
ghost use Rattle.sync_base.specs.declared.limits.TheConstants.{TOP_LEVEL};

use crate::Phase;
use crate::bare_world::posted::posted_as;
use crate::world::World;
use sync_base::Pid;

impl World {
    /// Whether some process is asleep in a Rendez and still posted in it, though a wakeup with a
    /// level above its threshold has returned.
    pub fn is_lost(&self) -> bool
        ensures fact { IsTrue result ↔ HasLostWakeup self.now }
        ensures value { result ≡ has_lost_wakeup self.now }
    {
        for pid in 0..self.bare.phases().len() {
            if self.oversleeps(pid) {
                return true;
            }
        }
        false
    }

    fn oversleeps(&self, pid: usize) -> bool
        requires there { pid < length self.now.phases }
        requires counts { pid < TOP_LEVEL }
        ensures { result ≡ oversleeps self.now pid (phase_of self.now pid) }
    {
        match self.bare.phase(pid) {
            Phase::Asleep { rendez, threshold } => {
                self.bare.posted()[rendez.0 as usize] == posted_as(Pid(pid as u64))
                    && self.returned[rendez.0 as usize] > threshold
            }
            _ => false,
        }
    }
}
