// Whether a pulse is on, and whether it ends.
ghost use Rattle.std.specs.Prelude.{◌≡◌, not, ◌&&◌};
ghost use Rattle.state.specs.States.{is_on, ends_at};

use super::State;

impl State {
    // Whether a pulse of this length is on.
    pub fn is_on(self, pulse: u32) -> bool
        ensures { result ≡ is_on pulse self.since }
    {
        self.since < pulse
    }

    // Whether a pulse of this length that is on is over where `since` ticks have passed since its front.
    pub fn ends(self, pulse: u32, since: u32) -> bool
        ensures { result ≡ ends_at pulse self.since since }
    {
        self.is_on(pulse) && pulse <= since
    }
}
