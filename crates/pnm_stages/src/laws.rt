//! Laws of what is due. Each is about the definitions alone, as the contract of a function that does nothing.

ghost use Rattle.pnm_stages.specs.Prefixes.{ListsHaveLongestPrefixes, LongestPrefixIsDue};
ghost use Rattle.pnm_stages.specs.declared.ring.TheConstants.{MAX_RING_CAPACITY};
ghost use Rattle.std.specs.Prelude.{◌≡◌};

/// Every list of messages has a longest lawful prefix.
pub fn lists_have_longest_prefixes()
    ensures { ListsHaveLongestPrefixes }
{}

/// A prefix of what is due for some lawful prefix of the received messages is also a prefix of what is due for the
/// longest lawful prefix.
pub fn longest_prefix_is_due()
    ensures { LongestPrefixIsDue }
{}

/// The limit of rings as a number. The definitions take it from the code by its name.
pub fn limits_are()
    ensures ring_capacity { MAX_RING_CAPACITY ≡ 1024 }
{}
