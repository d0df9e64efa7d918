ghost use Rattle.drafts.specs.Authentic.{DraftsAreAuthentic};

/// Proved (the function does nothing at run time): each transaction and each update that a script drafts is one of the
/// channel, has the id of its nonce and creator, and signatures of its creator and endorsers that the key book accepts.
pub fn drafts_are_authentic()
    ensures { DraftsAreAuthentic }
{}
