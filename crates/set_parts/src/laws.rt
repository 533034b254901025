//! Laws over the definitions, each the contract of a function that does nothing.

ghost use Rattle.set_parts.specs.Laws.{KeysAreInFront};

/// The octets of a set begin with those that tell its key.
pub fn keys_are_in_front()
    ensures { KeysAreInFront }
{}
