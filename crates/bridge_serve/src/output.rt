//! What answers go to.
ghost use Rattle.std.specs.Prelude.{◌≡◌, List, true, false};
ghost use Rattle.bridge_lines.specs.Acts.{Act};

use bridge_turns::Speaker;

/// What answers go to: what is said may wait until it is passed on.
pub trait Output: Speaker {
    // All that was said was passed on.
    ghost has_passed: { Self → Type 0 };

    // It failed: what was said since isn't passed on.
    ghost has_failed: { Self → Type 0 };

    /// Passes on what was said. Returns whether all of it was.
    fn flush(&mut self) -> bool
        ensures said { (start : Self) (said : List Act) → Self.says start self.old said → Self.says start self.new said }
        ensures passed { result ≡ true → has_passed self.new }
        ensures failed { result ≡ false → has_failed self.new };
}
