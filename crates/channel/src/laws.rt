ghost use Rattle.std.specs.Prelude.{◌≡◌};
ghost use Rattle.channel.specs.Configuration.{max_chaincodes};

use crate::channel_text::MAX_CHAINCODES;

/// Proved (the function does nothing at run time): the limits of this code are those that the definitions name.
pub fn limits_are_the_definitions()
    ensures { MAX_CHAINCODES ≡ max_chaincodes }
{}
