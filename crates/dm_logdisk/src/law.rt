//! What holds of whatever a disk has gone through.

ghost use Rattle.std.specs.Prelude.{◌≡◌, ℕ, List, true, false};
ghost use Rattle.dm_logdisk.specs.Story.{Story, opened, noted, synced, bytes_of, IsImage, IsDurable};

/// What a read gives is one of the things that a crash may leave. At the opening, and after a sync that had its effect, it is the only one; a
/// sync that had none makes nothing sure.
pub fn reads_are_images()
    ensures read { (s : Story) → IsImage s (bytes_of s) }
    ensures opening { (bytes : List ℕ) → IsDurable (opened bytes) }
    ensures durable { (s : Story) → IsDurable (noted (synced true) s) }
    ensures as_before { (s : Story) (bytes : List ℕ) → IsImage s bytes → IsImage (noted (synced false) s) bytes }
{}
