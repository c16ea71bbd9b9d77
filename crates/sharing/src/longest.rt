ghost use Rattle.sharing.specs.Longest.{LongestQueueUnlawful};

// All to the longest queue is no sharing rule.
pub fn longest_queue_is_unlawful()
    ensures { LongestQueueUnlawful }
{}
