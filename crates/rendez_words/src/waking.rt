//! How a process is woken whose flags were set.
ghost use Rattle.std.specs.Prelude.{◌≡◌, ◌<◌};
ghost use Rattle.sleep_core.specs.Table.Cell.{FlagsOf};
ghost use Rattle.rendez_words.specs.declared.parking.TheConstants.{PARKS};
ghost use Rattle.rendez_words.specs.Rule.{index_of};
ghost use Rattle.rendez_words.specs.Waking.{HasSet};
ghost use Rattle.rendez_words.specs.Words.{sizes_of, procs_of};

use crate::parking::{Found, Unwoken};
use crate::states::Caller;
use crate::words::Words;

impl Words {
    /// Wakes the process where it parks, or is about to. Otherwise this is a load, and no system
    /// call. The caller has set the flags: a process that is woken before they are set looks, parks
    /// again, and then nobody would wake it.
    pub(crate) fn wake(&self, unwoken: Unwoken, _by: &Caller)
        requires pid { unwoken.pid < procs_of self.now }
        requires set { HasSet _by.now unwoken.pid }
    {
        let found = self.parking.find(unwoken);
        if found.parks() {
            let word = self.flags_word(found.pid());
            self.wake_at(found, word);
        } else {
            found.pass();
        }
    }

    // Wakes the process that was found parking, on the word of its flags.
    fn wake_at(&self, found: Found, word: usize)
        requires pid { found.pid < procs_of self.now }
        requires parks { found.word ≡ PARKS }
        requires word { word ≡ index_of (sizes_of self.now) (FlagsOf found.pid) }
    {
        found.rouse();
        self.table.shared.wake_one(word);
    }
}
