//! A value: its type and its octets, made of a text or of octets.

ghost use Rattle.std.specs.Prelude.{◌≡◌, ◌≤◌, ◌++◌, ◌↔◌, [], length, take, drop, IsTrue, Ok, OnOk, OnErr, IfOk, IfErr};
ghost use Rattle.rdata.specs.Reading.{IsRead, most_text};
ghost use Rattle.rdata.specs.Steps.{FailsWith};
ghost use Rattle.rdata.specs.Written.{text_of};
ghost use Rattle.rdata.specs.Gives.{ReadsWire, GivesText};
ghost use Rattle.field_text.specs.Layout.{IsLayout};
ghost use Rattle.field_text.specs.Names.{AreOctets};

use crate::faults::{ValueFault, WireFault};
use crate::reading::{read_fields, read_tail};
use crate::writing::write_text;
use field_text::{RType, fields_go_on, fields_of, is_layout, spelled_is_field, tail_of};
use octets::{OutOfMemory, append};
use std::alloc::Global;
use std::marker::Model;

/// A value of a record: its type, and its octets on the wire with names uncompressed and in lower
/// case.
#[derive(Debug, Drop)]
pub struct RData {
    rtype: RType,
    wire: Vec<u8>,
}

impl Model for RData {
    ghost use Rattle.rdata.specs.Datum.{Datum};
    ghost use Rattle.field_text.specs.Layout.{IsLayout};

    ghost Value = { Datum };

    ghost view = { λ a. record { rtype = a.rtype; wire = a.wire.items } };

    ghost invariant = { λ a. IsLayout a.rtype a.wire.items };
}

/// The most bytes of a value's text.
const MOST_TEXT: usize = 4000;

impl RData {
    /// The value of a text, or its first fault from the left.
    ///
    /// A text of more than 4,000 bytes is too long, whatever it spells.
    pub fn from_text(alloc: Global, rtype: RType, text: &[u8]) -> Result<RData, ValueFault>
        ensures { GivesText rtype text.now result }
    {
        if text.len() > MOST_TEXT {
            return Err(ValueFault::TooLong);
        }
        let mut wire = Vec::new(alloc);
        match read_value(rtype, text, &mut wire) {
            Ok(()) => Ok(RData { rtype, wire }),
            Err(fault) => Err(fault),
        }
    }

    /// The value of octets that are in the type's layout.
    pub fn from_wire(alloc: Global, rtype: RType, bytes: &[u8]) -> Result<RData, WireFault>
        ensures { ReadsWire rtype bytes.now result }
    {
        if !is_layout(rtype, bytes) {
            return Err(WireFault::Bad);
        }
        let mut wire = Vec::new(alloc);
        wire.extend_from_slice(bytes)?;
        Ok(RData { rtype, wire })
    }

    /// Its type.
    pub fn rtype(&self) -> RType
        ensures { result ≡ self.now.rtype }
    {
        self.rtype
    }

    /// Its octets on the wire.
    pub fn wire(&self) -> &[u8]
        ensures octets { result.now ≡ self.now.wire }
        ensures layout { IsLayout self.now.rtype self.now.wire }
        ensures bytes { AreOctets self.now.wire }
    {
        bytes_are_octets(&self.wire);
        &self.wire
    }

    /// A copy of it.
    pub fn copy(&self, alloc: Global) -> Result<RData, OutOfMemory>
        ensures { IfOk result (λ copy. copy ≡ self.now) }
    {
        let mut wire = Vec::new(alloc);
        append(&self.wire, &mut wire)?;
        Ok(RData {
            rtype: self.rtype,
            wire,
        })
    }

    /// Whether the two are one value.
    pub fn is_same(&self, other: &RData) -> bool
        ensures { IsTrue result ↔ (self.now ≡ other.now) }
    {
        self.rtype == other.rtype && self.wire() == other.wire()
    }

    /// Writes its text to the front, and says how long it is (FORMATS, Texts of values).
    pub fn write_text(&self, into: &mut [u8; 16384]) -> usize
        ensures written { take result into.new ≡ text_of self.now.rtype self.now.wire }
        ensures size { result ≡ length (text_of self.now.rtype self.now.wire) }
        ensures rest { drop result into.new ≡ drop result into.old }
    {
        write_text(self.rtype, self.wire(), into)
    }

    /// Appends its octets on the wire. Where there is no memory, nothing is appended.
    pub fn write_wire(&self, into: &mut Vec<u8>) -> Result<(), OutOfMemory>
        ensures ok { OnOk result (into.new.items ≡ into.old.items ++ self.now.wire) }
        ensures err { OnErr result (into.new.items ≡ into.old.items) }
    {
        append(&self.wire, into)
    }
}

/// What all bytes are, for the premises of laws; it does nothing.
fn bytes_are_octets(bytes: &[u8])
    ensures { AreOctets bytes.now }
{}

/// Reads a text that isn't too long, and leaves the octets of its value.
fn read_value(rtype: RType, text: &[u8], into: &mut Vec<u8>) -> Result<(), ValueFault>
    requires empty { into.old.items ≡ [] }
    requires short { length text.now ≤ most_text }
    ensures ok { OnOk result (IsRead rtype text.now (Ok into.new.items)) }
    ensures layout { OnOk result (IsLayout rtype into.new.items) }
    ensures err { IfErr result (FailsWith (IsRead rtype text.now)) }
{
    fields_go_on();
    spelled_is_field();
    let at = match read_fields(fields_of(rtype), text, into) {
        Ok(at) => at,
        Err(fault) => return Err(fault),
    };
    match read_tail(tail_of(rtype), text, at, into) {
        Ok(()) => Ok(()),
        Err(fault) => Err(fault),
    }
}
