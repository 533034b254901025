//! The server, and the calls for a line.

ghost use Rattle.std.specs.Prelude.{◌≡◌, ◌≤◌, ℕ, List, IfOk, Option, Some, false, true, ⊤};
ghost use Rattle.line_bounds.specs.LineRecord.TheVariants as line;
ghost use Rattle.line_bounds.specs.LawsOfCommandBounds.{HasShortLists};
ghost use Rattle.line_bounds.specs.LawsOfConfigModel.{IsBounded};
ghost use Rattle.line_bounds.specs.Laws.{start_of};
ghost use Rattle.line_server.specs.Asking.{CommandAsksDisk, CompactionAsksDisk};
ghost use Rattle.line_server.specs.Holding.{Holds};
ghost use Rattle.line_server.specs.Leaving.{HasCause, ImagesOpen, UnlessHalted, Written};
ghost use Rattle.line_server.specs.Standing.{StandsFor};
ghost use Rattle.line_server.specs.Stores.{StandsFor as StoreStandsFor};
ghost use Rattle.line_server.specs.declared.answers.Taken.TheVariants as Taken;
ghost use Rattle.line_bounds.specs.LawsOfPageLaws.{IsAsked};
ghost use Rattle.r53_io.specs.Network.{Incoming};
ghost use Rattle.rand_core.specs.Stream.{Stream};
ghost use Rattle.line_bounds.specs.Outcomes.{text_of};
ghost use Rattle.line_bounds.specs.OutcomeRecord.TheVariants as outcome;
ghost use Rattle.list_sending.specs.Engine.{Engine};
ghost use Rattle.list_sending.specs.Replies.{too_long_text};
ghost use Rattle.list_sending.specs.Serving.{Datagram};
ghost use Rattle.list_sending.specs.Steps.{LineSteps, OctetsStep, State, Surroundings};
ghost use Rattle.session_server.specs.Keeping.{MakesOneMore, OpensOneMore};
ghost use Rattle.session_server.specs.Taking.{AsksDisk, AsksLink, IsWithin, LineLeaves};
ghost use Rattle.session_server.specs.Taking.{OctetsAskDisk, OctetsAskLink, PartOf, PartOfOctets};
ghost use Rattle.zone_journal.specs.Pairs.{BothRead};
ghost use Rattle.zone_journal.specs.Standing.{StandsOn};

use crate::asking::ask;
use crate::buffers::Buffers;
use check_lines::Observation;
use geo_latency::Tables;
use line_bounds::{Command, Line, ListOfSets, Outcome, Ports, QueryLine};
use line_faults::LineFault;
use line_server::{
    Store, Taken, bind_ports, compact, control, observe, query, sent, status, take_turns,
};
use list_sending::{send_list, send_outcome};
use octets::OutOfMemory;
use r53_disk::Disk;
use r53_io::{Link, Sink};
use rand_core::Rng;
use std::alloc::Global;
use std::marker::Model;

/// A server: a store, the tables from which it answers, and whether ports are bound.
#[derive(Drop)]
pub struct Server {
    store: Store,
    tables: Tables,
    bound: bool,
    buffers: Buffers,
}

impl Model for Server {
    ghost use Rattle.line_server.specs.Standing.{Server as Served};
    ghost use Rattle.session_server.specs.Buffers.{IsReady};

    ghost Value = { Served };

    ghost view = { λ s. record { store = s.store; tables = s.tables; bound = s.bound } };

    ghost invariant = { λ s. IsReady s.buffers };
}

impl Server {
    /// A server over a store, which answers from tables and has no ports yet. All memory is taken here, but
    /// for what reading a line, a command and the beginning of a compaction take.
    pub fn new(alloc: Global, store: Store, tables: Tables) -> Result<Server, OutOfMemory>
        ensures { IfOk result (λ server. server ≡ record {
          store = store;
          tables = tables;
          bound = false;
        }) }
    {
        let Ok(buffers) = Buffers::new(alloc) else {
            drop(tables);
            drop(store);
            return Err(OutOfMemory);
        };
        Ok(Server {
            store,
            tables,
            bound: false,
            buffers,
        })
    }

    /// Takes a line of octets: what it asks for is done, and its reply is written.
    ///
    /// Where a disk fails no part of the reply is written, and the store is opened again for commands;
    /// where the network fails none is written either.
    pub fn take_line<D: Disk, L: Link, R: Rng, K: Sink>(
        &mut self,
        alloc: Global,
        octets: &[u8],
        a: &mut D,
        b: &mut D,
        link: &mut L,
        words: &mut R,
        out: &mut K,
    ) -> Taken
        requires stands { StandsOn D.reading D.images self.old.store.kept.journal a.old b.old }
        ensures leaves { (around : Surroundings) (old : State) (held : List ℕ)
            (before : List Datagram) → around.tables ≡ self.old.tables
            → StandsFor old self.old (L.coming link.old) (R.stream words.old)
            → L.ports link.old ≡ Some around.given → K.held out.old ≡ Some held
            → L.sent link.old ≡ Some before
            → LineLeaves result (OctetsStep around octets.now old)
            (PartOfOctets around octets.now old before (L.coming link.new) (L.sent link.new))
            (BothRead D.reading a.old b.old (Holds self.old.store.kept))
            (ImagesOpen D.images a.new b.new old.engine.config)
            old (λ new. StandsFor new self.new (L.coming link.new) (R.stream words.new)) held before
            (K.held out.new) (L.sent link.new) }
        ensures stands { UnlessHalted result
            (StandsOn D.reading D.images self.new.store.kept.journal a.new b.new) }
        ensures holds { BothRead D.reading a.old b.old (Holds self.old.store.kept)
            → UnlessHalted result (BothRead D.reading a.new b.new (Holds self.new.store.kept)) }
        ensures kept { result ≡ Taken.LinkFault → self.new.store.kept ≡ self.old.store.kept }

        // Whatever the output and the network tell: one command that breaks no rule changed the
        // configuration, or none, and where a disk failed each pair of images opens to the one before it
        // or to the one after.
        ensures made { MakesOneMore self.old.store self.new.store }
        ensures torn { result ≡ Taken.DiskFault → (engine : Engine)
            → StoreStandsFor engine self.old.store
            → BothRead D.reading a.old b.old (Holds self.old.store.kept)
            → OpensOneMore D.images a.new b.new engine.config }

        // Where a disk failed the network has the same to come, and the random words are those before.
        ensures undrawn { result ≡ Taken.DiskFault → (L.coming link.new ≡ L.coming link.old)
            × (R.stream words.new ≡ R.stream words.old) }
        ensures tables { self.new.tables ≡ self.old.tables }
        ensures ports { L.ports link.new ≡ L.ports link.old }
        ensures a_counts { D.faults a.old ≤ D.faults a.new }
        ensures b_counts { D.faults b.old ≤ D.faults b.new }
        ensures link_counts { L.faults link.old ≤ L.faults link.new }
        ensures out_counts { K.faults out.old ≤ K.faults out.new }
        ensures cause { HasCause result (D.faults a.old) (D.faults a.new) (D.faults b.old)
            (D.faults b.new) (L.faults link.old) (L.faults link.new) (K.faults out.old)
            (K.faults out.new) }

        // And only of a line that asks what failed.
        ensures disk_asked { result ≡ Taken.DiskFault → (engine : Engine)
            → StoreStandsFor engine self.old.store → OctetsAskDisk octets.now engine }
        ensures link_asked { result ≡ Taken.LinkFault → OctetsAskLink octets.now self.old.bound }
    {
        match ask(alloc, octets) {
            Ok(asked) => self.take_asked(alloc, asked, a, b, link, words, out),
            Err(fault) => self.tell_fault(fault, out),
        }
    }

    /// Writes that a line is too long.
    pub fn refuse_line<K: Sink>(&mut self, out: &mut K) -> Taken
        ensures writes { (held : List ℕ) → K.held out.old ≡ Some held
            → Written result held (K.held out.new) too_long_text }
        ensures same { self.new ≡ self.old }
        ensures out_counts { K.faults out.old ≤ K.faults out.new }
        ensures cause { HasCause result 0 0 0 0 0 0 (K.faults out.old) (K.faults out.new) }
    {
        sent(send_outcome(&Outcome::LineTooLong, &mut self.buffers.text, out))
    }

    /// Writes the first fault of a line.
    fn tell_fault<K: Sink>(&mut self, fault: LineFault, out: &mut K) -> Taken
        ensures writes { (held : List ℕ) → K.held out.old ≡ Some held
            → Written result held (K.held out.new) (text_of (outcome.NotRead fault)) }
        ensures same { self.new ≡ self.old }
        ensures out_counts { K.faults out.old ≤ K.faults out.new }
        ensures cause { HasCause result 0 0 0 0 0 0 (K.faults out.old) (K.faults out.new) }
    {
        sent(send_outcome(&Outcome::NotRead(fault), &mut self.buffers.text, out))
    }

    /// Does what a line asks for.
    fn take_asked<D: Disk, L: Link, R: Rng, K: Sink>(
        &mut self,
        alloc: Global,
        asked: Line,
        a: &mut D,
        b: &mut D,
        link: &mut L,
        words: &mut R,
        out: &mut K,
    ) -> Taken
        requires within { IsWithin asked }
        requires stands { StandsOn D.reading D.images self.old.store.kept.journal a.old b.old }
        ensures leaves { (around : Surroundings) (old : State) (held : List ℕ)
            (before : List Datagram) → around.tables ≡ self.old.tables
            → StandsFor old self.old (L.coming link.old) (R.stream words.old)
            → L.ports link.old ≡ Some around.given → K.held out.old ≡ Some held
            → L.sent link.old ≡ Some before
            → LineLeaves result (LineSteps around asked old)
            (PartOf around asked old before (L.coming link.new) (L.sent link.new))
            (BothRead D.reading a.old b.old (Holds self.old.store.kept))
            (ImagesOpen D.images a.new b.new old.engine.config)
            old (λ new. StandsFor new self.new (L.coming link.new) (R.stream words.new)) held before
            (K.held out.new) (L.sent link.new) }
        ensures stands { UnlessHalted result
            (StandsOn D.reading D.images self.new.store.kept.journal a.new b.new) }
        ensures holds { BothRead D.reading a.old b.old (Holds self.old.store.kept)
            → UnlessHalted result (BothRead D.reading a.new b.new (Holds self.new.store.kept)) }
        ensures kept { result ≡ Taken.LinkFault → self.new.store.kept ≡ self.old.store.kept }
        ensures made { MakesOneMore self.old.store self.new.store }
        ensures torn { result ≡ Taken.DiskFault → (engine : Engine)
            → StoreStandsFor engine self.old.store
            → BothRead D.reading a.old b.old (Holds self.old.store.kept)
            → OpensOneMore D.images a.new b.new engine.config }
        ensures undrawn { result ≡ Taken.DiskFault → (L.coming link.new ≡ L.coming link.old)
            × (R.stream words.new ≡ R.stream words.old) }
        ensures tables { self.new.tables ≡ self.old.tables }
        ensures ports { L.ports link.new ≡ L.ports link.old }
        ensures a_counts { D.faults a.old ≤ D.faults a.new }
        ensures b_counts { D.faults b.old ≤ D.faults b.new }
        ensures link_counts { L.faults link.old ≤ L.faults link.new }
        ensures out_counts { K.faults out.old ≤ K.faults out.new }
        ensures cause { HasCause result (D.faults a.old) (D.faults a.new) (D.faults b.old)
            (D.faults b.new) (L.faults link.old) (L.faults link.new) (K.faults out.old)
            (K.faults out.new) }
        ensures disk_asked { result ≡ Taken.DiskFault → (engine : Engine)
            → StoreStandsFor engine self.old.store → AsksDisk asked engine }
        ensures link_asked { result ≡ Taken.LinkFault → AsksLink asked self.old.bound }
    {
        match asked {
            Line::Control(command) => self.take_command(alloc, command, a, b, out),
            Line::List(wanted) => self.tell_list(&wanted, out),
            Line::Status(id) => self.tell_status(id, out),
            Line::Observe(seen) => self.take_report(seen, out),
            Line::Query(packet) => self.tell_answer(&packet, out),
            Line::Bind(ports) => self.open_ports(ports, link, out),
            Line::Serve(turns) => self.take_turns(turns, link, words, out),
            Line::Compact(pieces) => self.compact(alloc, pieces, a, b, out),
        }
    }

    /// Takes a command.
    fn take_command<D: Disk, K: Sink>(
        &mut self,
        alloc: Global,
        command: Command,
        a: &mut D,
        b: &mut D,
        out: &mut K,
    ) -> Taken
        requires bounded { IsBounded command }
        requires short { HasShortLists command }
        requires stands { StandsOn D.reading D.images self.old.store.kept.journal a.old b.old }
        ensures leaves { (around : Surroundings) (old : State) (held : List ℕ)
            (before : List Datagram) (network : Option (List Incoming)) (random : Stream)
            (told : Option (List Datagram))
            → StandsFor old self.old network random → K.held out.old ≡ Some held
            → told ≡ Some before
            → LineLeaves result (LineSteps around (line.Control command) old)
            (PartOf around (line.Control command) old before network told)
            (BothRead D.reading a.old b.old (Holds self.old.store.kept))
            (ImagesOpen D.images a.new b.new old.engine.config)
            old (λ new. StandsFor new self.new network random) held before (K.held out.new) told }
        ensures stands { UnlessHalted result
            (StandsOn D.reading D.images self.new.store.kept.journal a.new b.new) }
        ensures holds { BothRead D.reading a.old b.old (Holds self.old.store.kept)
            → UnlessHalted result (BothRead D.reading a.new b.new (Holds self.new.store.kept)) }
        ensures made { MakesOneMore self.old.store self.new.store }
        ensures torn { result ≡ Taken.DiskFault → (engine : Engine)
            → StoreStandsFor engine self.old.store
            → BothRead D.reading a.old b.old (Holds self.old.store.kept)
            → OpensOneMore D.images a.new b.new engine.config }
        ensures tables { self.new.tables ≡ self.old.tables }
        ensures a_counts { D.faults a.old ≤ D.faults a.new }
        ensures b_counts { D.faults b.old ≤ D.faults b.new }
        ensures out_counts { K.faults out.old ≤ K.faults out.new }
        ensures cause { HasCause result (D.faults a.old) (D.faults a.new) (D.faults b.old)
            (D.faults b.new) 0 0 (K.faults out.old) (K.faults out.new) }
        ensures disk_asked { result ≡ Taken.DiskFault → (engine : Engine)
            → StoreStandsFor engine self.old.store → CommandAsksDisk command engine }
    {
        control(
            alloc,
            &mut self.store,
            command,
            a,
            b,
            &mut self.buffers.text,
            out,
        )
    }

    /// Makes pieces of a compaction.
    fn compact<D: Disk, K: Sink>(
        &mut self,
        alloc: Global,
        pieces: u32,
        a: &mut D,
        b: &mut D,
        out: &mut K,
    ) -> Taken
        requires some { 1 ≤ pieces }
        requires stands { StandsOn D.reading D.images self.old.store.kept.journal a.old b.old }
        ensures leaves { (around : Surroundings) (old : State) (held : List ℕ)
            (before : List Datagram) (network : Option (List Incoming)) (random : Stream)
            (told : Option (List Datagram))
            → StandsFor old self.old network random → K.held out.old ≡ Some held
            → told ≡ Some before
            → LineLeaves result (LineSteps around (line.Compact pieces) old)
            (PartOf around (line.Compact pieces) old before network told)
            (BothRead D.reading a.old b.old (Holds self.old.store.kept))
            (ImagesOpen D.images a.new b.new old.engine.config)
            old (λ new. StandsFor new self.new network random) held before (K.held out.new) told }
        ensures stands { UnlessHalted result
            (StandsOn D.reading D.images self.new.store.kept.journal a.new b.new) }
        ensures holds { BothRead D.reading a.old b.old (Holds self.old.store.kept)
            → UnlessHalted result (BothRead D.reading a.new b.new (Holds self.new.store.kept)) }
        ensures made { MakesOneMore self.old.store self.new.store }
        ensures torn { result ≡ Taken.DiskFault → (engine : Engine)
            → StoreStandsFor engine self.old.store
            → BothRead D.reading a.old b.old (Holds self.old.store.kept)
            → OpensOneMore D.images a.new b.new engine.config }
        ensures tables { self.new.tables ≡ self.old.tables }
        ensures a_counts { D.faults a.old ≤ D.faults a.new }
        ensures b_counts { D.faults b.old ≤ D.faults b.new }
        ensures out_counts { K.faults out.old ≤ K.faults out.new }
        ensures cause { HasCause result (D.faults a.old) (D.faults a.new) (D.faults b.old)
            (D.faults b.new) 0 0 (K.faults out.old) (K.faults out.new) }
        ensures disk_asked { result ≡ Taken.DiskFault → (engine : Engine)
            → StoreStandsFor engine self.old.store → CompactionAsksDisk engine }
    {
        compact(
            alloc,
            &mut self.store,
            pieces,
            a,
            b,
            &mut self.buffers.text,
            out,
        )
    }

    /// Writes a list of sets.
    fn tell_list<K: Sink>(&mut self, list: &ListOfSets, out: &mut K) -> Taken
        requires asked { IsAsked (start_of list.now) }
        ensures leaves { (around : Surroundings) (old : State) (held : List ℕ)
            (before : List Datagram) (network : Option (List Incoming)) (random : Stream)
            (told : Option (List Datagram)) → around.tables ≡ self.old.tables
            → StandsFor old self.old network random → K.held out.old ≡ Some held
            → told ≡ Some before
            → LineLeaves result (LineSteps around (line.List list.now) old) ⊥ ⊤ (λ after. ⊥)
            old (λ new. StandsFor new self.new network random) held before (K.held out.new) told }
        ensures kept { self.new.store.kept ≡ self.old.store.kept }
        ensures made { MakesOneMore self.old.store self.new.store }
        ensures tables { self.new.tables ≡ self.old.tables }
        ensures out_counts { K.faults out.old ≤ K.faults out.new }
        ensures cause { HasCause result 0 0 0 0 0 0 (K.faults out.old) (K.faults out.new) }
    {
        sent(send_list(
            self.store.zones(),
            list,
            &mut self.buffers.scratch,
            &mut self.buffers.value,
            &mut self.buffers.text,
            out,
        ))
    }

    /// Writes the status of a check.
    fn tell_status<K: Sink>(&mut self, id: u32, out: &mut K) -> Taken
        ensures leaves { (around : Surroundings) (old : State) (held : List ℕ)
            (before : List Datagram) (network : Option (List Incoming)) (random : Stream)
            (told : Option (List Datagram)) → around.tables ≡ self.old.tables
            → StandsFor old self.old network random → K.held out.old ≡ Some held
            → told ≡ Some before
            → LineLeaves result (LineSteps around (line.Status id) old) ⊥ ⊤ (λ after. ⊥)
            old (λ new. StandsFor new self.new network random) held before (K.held out.new) told }
        ensures kept { self.new.store.kept ≡ self.old.store.kept }
        ensures made { MakesOneMore self.old.store self.new.store }
        ensures tables { self.new.tables ≡ self.old.tables }
        ensures out_counts { K.faults out.old ≤ K.faults out.new }
        ensures cause { HasCause result 0 0 0 0 0 0 (K.faults out.old) (K.faults out.new) }
    {
        status(&self.store, id, &mut self.buffers.text, out)
    }

    /// Takes what a checker saw.
    fn take_report<K: Sink>(&mut self, seen: Observation, out: &mut K) -> Taken
        ensures leaves { (around : Surroundings) (old : State) (held : List ℕ)
            (before : List Datagram) (network : Option (List Incoming)) (random : Stream)
            (told : Option (List Datagram)) → around.tables ≡ self.old.tables
            → StandsFor old self.old network random → K.held out.old ≡ Some held
            → told ≡ Some before
            → LineLeaves result (LineSteps around (line.Observe seen) old) ⊥ ⊤ (λ after. ⊥)
            old (λ new. StandsFor new self.new network random) held before (K.held out.new) told }
        ensures kept { self.new.store.kept ≡ self.old.store.kept }
        ensures made { MakesOneMore self.old.store self.new.store }
        ensures tables { self.new.tables ≡ self.old.tables }
        ensures out_counts { K.faults out.old ≤ K.faults out.new }
        ensures cause { HasCause result 0 0 0 0 0 0 (K.faults out.old) (K.faults out.new) }
    {
        observe(&mut self.store, seen, &mut self.buffers.text, out)
    }

    /// Writes the reply to a packet.
    fn tell_answer<K: Sink>(&mut self, asked: &QueryLine, out: &mut K) -> Taken
        ensures leaves { (around : Surroundings) (old : State) (held : List ℕ)
            (before : List Datagram) (network : Option (List Incoming)) (random : Stream)
            (told : Option (List Datagram)) → around.tables ≡ self.old.tables
            → StandsFor old self.old network random → K.held out.old ≡ Some held
            → told ≡ Some before
            → LineLeaves result (LineSteps around (line.Query asked.now) old) ⊥ ⊤ (λ after. ⊥)
            old (λ new. StandsFor new self.new network random) held before (K.held out.new) told }
        ensures kept { self.new.store.kept ≡ self.old.store.kept }
        ensures made { MakesOneMore self.old.store self.new.store }
        ensures tables { self.new.tables ≡ self.old.tables }
        ensures out_counts { K.faults out.old ≤ K.faults out.new }
        ensures cause { HasCause result 0 0 0 0 0 0 (K.faults out.old) (K.faults out.new) }
    {
        query(
            &mut self.store,
            &self.tables,
            asked,
            &mut self.buffers.reply,
            &mut self.buffers.text,
            out,
        )
    }

    /// Binds ports.
    fn open_ports<L: Link, K: Sink>(&mut self, ports: Ports, link: &mut L, out: &mut K) -> Taken
        ensures leaves { (around : Surroundings) (old : State) (held : List ℕ)
            (before : List Datagram) (random : Stream)
            → StandsFor old self.old (L.coming link.old) random → L.ports link.old ≡ Some around.given
            → K.held out.old ≡ Some held → L.sent link.old ≡ Some before
            → LineLeaves result (LineSteps around (line.Bind ports) old)
            (PartOf around (line.Bind ports) old before (L.coming link.new) (L.sent link.new))
            ⊤ (λ after. ⊥) old (λ new. StandsFor new self.new (L.coming link.new) random) held
            before (K.held out.new) (L.sent link.new) }
        ensures kept { self.new.store.kept ≡ self.old.store.kept }
        ensures made { MakesOneMore self.old.store self.new.store }
        ensures tables { self.new.tables ≡ self.old.tables }
        ensures ports { L.ports link.new ≡ L.ports link.old }
        ensures link_counts { L.faults link.old ≤ L.faults link.new }
        ensures out_counts { K.faults out.old ≤ K.faults out.new }
        ensures cause { HasCause result 0 0 0 0 (L.faults link.old) (L.faults link.new)
            (K.faults out.old) (K.faults out.new) }
        ensures link_asked { result ≡ Taken.LinkFault → self.old.bound ≡ false }
    {
        bind_ports(&mut self.bound, ports, link, &mut self.buffers.text, out)
    }

    /// Takes turns of the network.
    fn take_turns<L: Link, R: Rng, K: Sink>(
        &mut self,
        turns: u32,
        link: &mut L,
        words: &mut R,
        out: &mut K,
    ) -> Taken
        ensures leaves { (around : Surroundings) (old : State) (held : List ℕ)
            (before : List Datagram)
            → around.tables ≡ self.old.tables
            → StandsFor old self.old (L.coming link.old) (R.stream words.old)
            → K.held out.old ≡ Some held → L.sent link.old ≡ Some before
            → LineLeaves result (LineSteps around (line.Serve turns) old)
            (PartOf around (line.Serve turns) old before (L.coming link.new) (L.sent link.new))
            ⊤ (λ after. ⊥) old (λ new. StandsFor new self.new (L.coming link.new) (R.stream words.new))
            held before (K.held out.new) (L.sent link.new) }
        ensures kept { self.new.store.kept ≡ self.old.store.kept }
        ensures made { MakesOneMore self.old.store self.new.store }
        ensures tables { self.new.tables ≡ self.old.tables }
        ensures ports { L.ports link.new ≡ L.ports link.old }
        ensures link_counts { L.faults link.old ≤ L.faults link.new }
        ensures out_counts { K.faults out.old ≤ K.faults out.new }
        ensures cause { HasCause result 0 0 0 0 (L.faults link.old) (L.faults link.new)
            (K.faults out.old) (K.faults out.new) }
        ensures link_asked { result ≡ Taken.LinkFault → self.old.bound ≡ true }
    {
        take_turns(
            self.bound,
            &mut self.store,
            &self.tables,
            turns,
            link,
            words,
            &mut self.buffers.packet,
            &mut self.buffers.replies,
            &mut self.buffers.reply,
            &mut self.buffers.text,
            out,
        )
    }
}
