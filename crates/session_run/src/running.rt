//! The tables, the store, and then the lines.

ghost use Rattle.std.specs.Prelude.{◌≡◌, ◌≤◌, ℕ, List, IfSome, None, Some, false};
ghost use Rattle.line_splitting.specs.Reading.{fresh};
ghost use Rattle.engine_model.specs.Engine.{Engine};
ghost use Rattle.session_loop.specs.Ending.{Ends, FilesKept, HasCause};
ghost use Rattle.session_loop.specs.Holding.{Holds};
ghost use Rattle.session_loop.specs.Standing.{StandsFor};
ghost use Rattle.session_loop.specs.Stores.{StandsFor as StoreStandsFor};
ghost use Rattle.session_model.specs.Serving.{Datagram};
ghost use Rattle.session_model.specs.Steps.{State, Surroundings};
ghost use Rattle.session_run.specs.Running.{Given, HasCauseOf, IsTold, RunLeaves, SessionLeaves};
ghost use Rattle.session_run.specs.Running.{FilesSay, IfUntabled, SessionKeeps, TablesSay, UnlessEnded};
ghost use Rattle.session_run.specs.Running.{unopened, unread, whole_input};
ghost use Rattle.zone_journal.specs.Pairs.{BothRead, Unwritten};
ghost use Rattle.zone_journal.specs.Standing.{StandsOn};

use crate::ran::Ran;
use geo_latency::Tables;
use r53_disk::Disk;
use r53_io::{Link, Sink, Source};
use rand_core::Rng;
use session_loop::{Ended, LineReader, Server, Store, fresh_reader, take_lines};
use std::alloc::Global;
use store_model::standing_place;
use table_lines::{TablesFault, read_tables};
use zone_journal::OpenFault;

/// Runs a session: reads all tables, opens the store over two disks, and takes the lines of an input
/// up to its end or to the first fault.
///
/// Packets and reports come from the link, and random words are drawn for each packet.
pub fn run_session<S: Source, T: Source, D: Disk, L: Link, R: Rng, K: Sink>(
    alloc: Global,
    input: &mut S,
    tables: &mut T,
    out: &mut K,
    a: &mut D,
    b: &mut D,
    link: &mut L,
    words: &mut R,
) -> Ran
    // What was written and sent, what is left of the input, the network and the random words as far as
    // `Ends` says it, and what the files open to, where all that is asked tells what it has.
    ensures leaves { (given : Given) → IsTold given (S.left input.old) (T.left tables.old)
        (D.reading a.old) (D.reading b.old) (K.held out.old) (L.ports link.old) (L.coming link.old)
        (L.sent link.old) (R.stream words.old)
        → RunLeaves result D.images a.new b.new given (S.left input.new) (L.coming link.new)
        (R.stream words.new) (K.held out.new) (L.sent link.new) }

    // What the tables and the files alone say of it, where these tell what they have.
    ensures tables_say { (rows : List ℕ) → T.left tables.old ≡ Some rows → TablesSay result rows }
    ensures files_say { (x y : List ℕ) → D.reading a.old ≡ Some x → D.reading b.old ≡ Some y
        → FilesSay result x y }

    // What the files open to at the end, where the disks tell what they read, whatever else tells.
    ensures files_keep { (x y : List ℕ) → D.reading a.old ≡ Some x → D.reading b.old ≡ Some y
        → SessionKeeps result D.images a.new b.new x y }

    // Where it ended before its lines it asked the tables and the disks alone, and where the tables
    // ended it them alone. The files are as they were then.
    ensures unasked { UnlessEnded result ((input.new ≡ input.old) × (out.new ≡ out.old)
        × (link.new ≡ link.old) × (words.new ≡ words.old)) }
    ensures unopened { IfUntabled result ((a.new ≡ a.old) × (b.new ≡ b.old)) }
    ensures a_unwritten { UnlessEnded result ((x : List ℕ) → D.reading a.old ≡ Some x
        → Unwritten D.reading D.images D.moment D.images_since a.old a.new) }
    ensures b_unwritten { UnlessEnded result ((y : List ℕ) → D.reading b.old ≡ Some y
        → Unwritten D.reading D.images D.moment D.images_since b.old b.new) }

    // A fault comes only where the count of what failed rose.
    ensures in_counts { S.faults input.old ≤ S.faults input.new }
    ensures table_counts { T.faults tables.old ≤ T.faults tables.new }
    ensures a_counts { D.faults a.old ≤ D.faults a.new }
    ensures b_counts { D.faults b.old ≤ D.faults b.new }
    ensures link_counts { L.faults link.old ≤ L.faults link.new }
    ensures out_counts { K.faults out.old ≤ K.faults out.new }
    ensures cause { HasCauseOf result (S.faults input.old) (S.faults input.new)
        (T.faults tables.old) (T.faults tables.new) (D.faults a.old) (D.faults a.new)
        (D.faults b.old) (D.faults b.new) (L.faults link.old) (L.faults link.new)
        (K.faults out.old) (K.faults out.new) }
{
    match read_tables(alloc, tables) {
        Ok(rows) => open_session(alloc, rows, input, out, a, b, link, words),
        Err(fault) => unread(fault),
    }
}

/// How a session ends whose tables aren't read.
fn unread(fault: TablesFault) -> Ran
    ensures { result ≡ unread fault }
{
    match fault {
        TablesFault::Bad(number) => Ran::BadTables(number),
        TablesFault::ReadFault => Ran::TablesFault,
        TablesFault::TooLong => Ran::TablesTooLong,
        TablesFault::OutOfMemory => Ran::OutOfMemory,
    }
}

/// The same, once the tables are read. All memory of a session is taken at its beginning, but for what reading a
/// line, a command and the beginning of a compaction take.
fn open_session<S: Source, D: Disk, L: Link, R: Rng, K: Sink>(
    alloc: Global,
    rows: Tables,
    input: &mut S,
    out: &mut K,
    a: &mut D,
    b: &mut D,
    link: &mut L,
    words: &mut R,
) -> Ran
    ensures leaves { (given : Given) → IsTold given (S.left input.old) (Some given.rows)
        (D.reading a.old) (D.reading b.old) (K.held out.old) (L.ports link.old) (L.coming link.old)
        (L.sent link.old) (R.stream words.old)
        → SessionLeaves result D.images a.new b.new given rows (S.left input.new)
        (L.coming link.new) (R.stream words.new) (K.held out.new) (L.sent link.new) }
    ensures files_say { (x y : List ℕ) → D.reading a.old ≡ Some x → D.reading b.old ≡ Some y
        → FilesSay result x y }
    ensures files_keep { (x y : List ℕ) → D.reading a.old ≡ Some x → D.reading b.old ≡ Some y
        → SessionKeeps result D.images a.new b.new x y }
    ensures unasked { UnlessEnded result ((input.new ≡ input.old) × (out.new ≡ out.old)
        × (link.new ≡ link.old) × (words.new ≡ words.old)) }
    ensures tabled { IfUntabled result ⊥ }
    ensures a_unwritten { UnlessEnded result ((x : List ℕ) → D.reading a.old ≡ Some x
        → Unwritten D.reading D.images D.moment D.images_since a.old a.new) }
    ensures b_unwritten { UnlessEnded result ((y : List ℕ) → D.reading b.old ≡ Some y
        → Unwritten D.reading D.images D.moment D.images_since b.old b.new) }
    ensures in_counts { S.faults input.old ≤ S.faults input.new }
    ensures a_counts { D.faults a.old ≤ D.faults a.new }
    ensures b_counts { D.faults b.old ≤ D.faults b.new }
    ensures link_counts { L.faults link.old ≤ L.faults link.new }
    ensures out_counts { K.faults out.old ≤ K.faults out.new }
    ensures cause { HasCauseOf result (S.faults input.old) (S.faults input.new) 0 0
        (D.faults a.old) (D.faults a.new) (D.faults b.old) (D.faults b.new) (L.faults link.old)
        (L.faults link.new) (K.faults out.old) (K.faults out.new) }
{
    match LineReader::new(alloc) {
        Ok(mut reader) => {
            let ran = open_over(alloc, rows, &mut reader, input, out, a, b, link, words);
            drop(reader);
            ran
        }
        Err(_) => {
            drop(rows);
            Ran::OutOfMemory
        }
    }
}

/// The same with a reader of lines.
fn open_over<S: Source, D: Disk, L: Link, R: Rng, K: Sink>(
    alloc: Global,
    rows: Tables,
    reader: &mut LineReader,
    input: &mut S,
    out: &mut K,
    a: &mut D,
    b: &mut D,
    link: &mut L,
    words: &mut R,
) -> Ran
    requires reader { reader.old ≡ fresh }
    ensures leaves { (given : Given) → IsTold given (S.left input.old) (Some given.rows)
        (D.reading a.old) (D.reading b.old) (K.held out.old) (L.ports link.old) (L.coming link.old)
        (L.sent link.old) (R.stream words.old)
        → SessionLeaves result D.images a.new b.new given rows (S.left input.new)
        (L.coming link.new) (R.stream words.new) (K.held out.new) (L.sent link.new) }
    ensures files_say { (x y : List ℕ) → D.reading a.old ≡ Some x → D.reading b.old ≡ Some y
        → FilesSay result x y }
    ensures files_keep { (x y : List ℕ) → D.reading a.old ≡ Some x → D.reading b.old ≡ Some y
        → SessionKeeps result D.images a.new b.new x y }
    ensures unasked { UnlessEnded result ((input.new ≡ input.old) × (out.new ≡ out.old)
        × (link.new ≡ link.old) × (words.new ≡ words.old)) }
    ensures tabled { IfUntabled result ⊥ }
    ensures a_unwritten { UnlessEnded result ((x : List ℕ) → D.reading a.old ≡ Some x
        → Unwritten D.reading D.images D.moment D.images_since a.old a.new) }
    ensures b_unwritten { UnlessEnded result ((y : List ℕ) → D.reading b.old ≡ Some y
        → Unwritten D.reading D.images D.moment D.images_since b.old b.new) }
    ensures in_counts { S.faults input.old ≤ S.faults input.new }
    ensures a_counts { D.faults a.old ≤ D.faults a.new }
    ensures b_counts { D.faults b.old ≤ D.faults b.new }
    ensures link_counts { L.faults link.old ≤ L.faults link.new }
    ensures out_counts { K.faults out.old ≤ K.faults out.new }
    ensures cause { HasCauseOf result (S.faults input.old) (S.faults input.new) 0 0
        (D.faults a.old) (D.faults a.new) (D.faults b.old) (D.faults b.new) (L.faults link.old)
        (L.faults link.new) (K.faults out.old) (K.faults out.new) }
{
    standing_place::<D>();
    match Store::open(alloc, a, b) {
        Ok(store) => match run_over(alloc, store, rows, reader, input, a, b, link, words, out) {
            Some(how) => Ran::Ended(how),
            None => Ran::OutOfMemory,
        },
        Err(fault) => {
            drop(rows);
            unopened(fault)
        }
    }
}

/// How a session ends whose store isn't opened.
fn unopened(fault: OpenFault) -> Ran
    ensures { result ≡ unopened fault }
{
    match fault {
        OpenFault::NotAStore(side, place) => Ran::NotAStore(side, place),
        OpenFault::DiskFault => Ran::OpeningFault,
        OpenFault::OutOfMemory => Ran::OutOfMemory,
    }
}

/// Takes the lines of an input from its beginning, over a store and tables; none is taken where memory is wanted.
fn run_over<S: Source, D: Disk, L: Link, R: Rng, K: Sink>(
    alloc: Global,
    store: Store,
    rows: Tables,
    reader: &mut LineReader,
    input: &mut S,
    a: &mut D,
    b: &mut D,
    link: &mut L,
    words: &mut R,
    out: &mut K,
) -> Option<Ended>
    requires reader { reader.old ≡ fresh }
    requires stands { StandsOn D.reading D.images store.kept.journal a.old b.old }
    ensures leaves { (around : Surroundings) (start : State) (left : List ℕ) (held : List ℕ)
        (before : List Datagram) → around.tables ≡ rows
        → StandsFor start (record { store = store; tables = rows; bound = false }) (L.coming link.old)
        (R.stream words.old)
        → BothRead D.reading a.old b.old (Holds store.kept)
        → L.ports link.old ≡ Some around.given → S.left input.old ≡ Some left
        → K.held out.old ≡ Some held → L.sent link.old ≡ Some before
        → IfSome result (λ how. Ends how D.images a.new b.new around (whole_input left) start held before
        (S.left input.new) (L.coming link.new) (R.stream words.new) (K.held out.new)
        (L.sent link.new)) }
    ensures files { (engine : Engine) → StoreStandsFor engine store
        → BothRead D.reading a.old b.old (Holds store.kept)
        → IfSome result (λ how. FilesKept how D.images a.new b.new engine.config) }
    ensures unasked { result ≡ None → (input.new ≡ input.old) × (out.new ≡ out.old)
        × (link.new ≡ link.old) × (words.new ≡ words.old) × (a.new ≡ a.old) × (b.new ≡ b.old) }
    ensures in_counts { S.faults input.old ≤ S.faults input.new }
    ensures a_counts { D.faults a.old ≤ D.faults a.new }
    ensures b_counts { D.faults b.old ≤ D.faults b.new }
    ensures link_counts { L.faults link.old ≤ L.faults link.new }
    ensures out_counts { K.faults out.old ≤ K.faults out.new }
    ensures cause { IfSome result (λ how. HasCause how (S.faults input.old) (S.faults input.new)
        (D.faults a.old) (D.faults a.new) (D.faults b.old) (D.faults b.new) (L.faults link.old)
        (L.faults link.new) (K.faults out.old) (K.faults out.new)) }
{
    match Server::new(alloc, store, rows) {
        Ok(mut server) => {
            let how = go_on(alloc, reader, &mut server, input, a, b, link, words, out);
            drop(server);
            Some(how)
        }
        Err(_) => None,
    }
}

/// Takes the lines of an input from its beginning by a server.
fn go_on<S: Source, D: Disk, L: Link, R: Rng, K: Sink>(
    alloc: Global,
    reader: &mut LineReader,
    server: &mut Server,
    input: &mut S,
    a: &mut D,
    b: &mut D,
    link: &mut L,
    words: &mut R,
    out: &mut K,
) -> Ended
    requires reader { reader.old ≡ fresh }
    requires stands { StandsOn D.reading D.images server.old.store.kept.journal a.old b.old }
    ensures leaves { (around : Surroundings) (start : State) (left : List ℕ) (held : List ℕ)
        (before : List Datagram) → around.tables ≡ server.old.tables
        → StandsFor start server.old (L.coming link.old) (R.stream words.old)
        → BothRead D.reading a.old b.old (Holds server.old.store.kept)
        → L.ports link.old ≡ Some around.given → S.left input.old ≡ Some left
        → K.held out.old ≡ Some held → L.sent link.old ≡ Some before
        → Ends result D.images a.new b.new around (whole_input left) start held before
        (S.left input.new) (L.coming link.new) (R.stream words.new) (K.held out.new)
        (L.sent link.new) }
    ensures files { (engine : Engine) → StoreStandsFor engine server.old.store
        → BothRead D.reading a.old b.old (Holds server.old.store.kept)
        → FilesKept result D.images a.new b.new engine.config }
    ensures in_counts { S.faults input.old ≤ S.faults input.new }
    ensures a_counts { D.faults a.old ≤ D.faults a.new }
    ensures b_counts { D.faults b.old ≤ D.faults b.new }
    ensures link_counts { L.faults link.old ≤ L.faults link.new }
    ensures out_counts { K.faults out.old ≤ K.faults out.new }
    ensures cause { HasCause result (S.faults input.old) (S.faults input.new) (D.faults a.old)
        (D.faults a.new) (D.faults b.old) (D.faults b.new) (L.faults link.old) (L.faults link.new)
        (K.faults out.old) (K.faults out.new) }
{
    fresh_reader();
    take_lines(alloc, reader, server, input, a, b, link, words, out)
}
