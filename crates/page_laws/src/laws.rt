//! Laws over the definitions, each the contract of a function that does nothing.

ghost use Rattle.page_laws.specs.Laws.{PagesFollow, StartsArePlaces};

/// A set is before a start exactly where its key comes before the start's.
pub fn starts_are_places()
    ensures { StartsArePlaces }
{}

/// In zone order the sets of a list are those behind as many as are before its start.
pub fn pages_follow()
    ensures { PagesFollow }
{
    zone_model::keys_are_ordered();
}
