// Whether a configuration is taken.
ghost use Rattle.std.specs.Prelude.{◌≡◌};
ghost use Rattle.descriptor.specs.Refusals.{sound_configuration};

use super::Configuration;

impl Configuration {
    // Whether D and G are within their ends.
    pub fn is_sound(self) -> bool
        ensures { result ≡ sound_configuration self.pulse self.gap }
    {
        (1..=500).contains(&self.pulse) && (1..=500).contains(&self.gap)
    }
}
