//! Laws over the definitions, each the contract of a function that does nothing.

ghost use Rattle.session_run.specs.Laws.{NoStoreOrBeginning, OneBeginning};

use store_model::{no_store_or_config, one_shape, pair_opens_to_one_config};

/// A session has one beginning at most.
pub fn one_beginning()
    ensures { OneBeginning }
{
    pair_opens_to_one_config();
    one_shape();
}

/// Where a session can begin, its files are not told to be no store.
pub fn no_store_or_beginning()
    ensures { NoStoreOrBeginning }
{
    no_store_or_config();
}
