//! A name in the making, as its text is read.

ghost use Rattle.std.specs.Prelude.{◌≡◌, ℕ, ◌+◌, ◌<◌, ◌≤◌, List, [], ◌∷◌, ◌++◌, length, drop, true};
ghost use Rattle.std.specs.Prelude.{false, OnOk, IfOk, IfErr};
ghost use Rattle.dns_name.specs.Text.{Progress, add_character, end_label, read_from, ended};
ghost use Rattle.dns_name.specs.Text.{is_graphic};
ghost use Rattle.std.specs.Result.{result_map_both};
ghost use Rattle.dns_name.specs.Labels.{lowered};
ghost use Rattle.dns_name.specs.Text.Progress.{Reading, Stopped};
ghost use Rattle.dns_name.specs.Spelling.{SpellsSoFar, Advances};

use crate::{Name, NameFault};
use octets::{behind, front, octal_at};

/// Whole labels on the wire, and a part of the next.
#[derive(Clone, Copy)]
pub(crate) struct Spelling {
    bytes: [u8; 255],
    /// Where the length octet of the next label stands.
    start: usize,
    /// Where that label's next octet goes.
    end: usize,
}

impl Spelling {
    /// Nothing so far.
    pub fn new() -> Spelling
        ensures { SpellsSoFar result.bytes result.start result.end [] [] }
    {
        Spelling {
            bytes: [0; 255],
            start: 0,
            end: 1,
        }
    }

    /// A character of this value, which begins at this byte of the text.
    fn add_character(&mut self, at: usize, value: u8) -> Result<(), NameFault>
        requires { (done : List (List ℕ)) × (label : List ℕ)
            × SpellsSoFar self.old.bytes self.old.start self.old.end done label }
        ensures ok { OnOk result ((done : List (List ℕ)) (label : List ℕ) (more : ℕ)
            → SpellsSoFar self.old.bytes self.old.start self.old.end done label
            → SpellsSoFar self.new.bytes self.new.start self.new.end done (label ++ value ∷ [])
            × (add_character done label at value more ≡ Reading more done (label ++ value ∷ []))) }
        ensures err { IfErr result (λ fault. (done : List (List ℕ)) (label : List ℕ) (more : ℕ)
            → SpellsSoFar self.old.bytes self.old.start self.old.end done label
            → add_character done label at value more ≡ Stopped fault) }
    {
        if self.end - self.start > 63 {
            return Err(NameFault::LabelTooLong(at));
        }
        if self.end > 253 {
            return Err(NameFault::NameTooLong(at));
        }
        self.bytes[self.end] = value;
        self.end += 1;
        Ok(())
    }

    /// The dot behind a label, at this byte of the text.
    fn end_label(&mut self, at: usize) -> Result<(), NameFault>
        requires { (done : List (List ℕ)) × (label : List ℕ)
            × SpellsSoFar self.old.bytes self.old.start self.old.end done label }
        ensures ok { OnOk result ((done : List (List ℕ)) (label : List ℕ)
            → SpellsSoFar self.old.bytes self.old.start self.old.end done label
            → SpellsSoFar self.new.bytes self.new.start self.new.end (done ++ label ∷ []) []
            × (end_label done label at ≡ Reading 0 (done ++ label ∷ []) [])) }
        ensures err { IfErr result (λ fault. (done : List (List ℕ)) (label : List ℕ)
            → SpellsSoFar self.old.bytes self.old.start self.old.end done label
            → end_label done label at ≡ Stopped fault) }
    {
        if self.end == self.start + 1 {
            return Err(NameFault::EmptyLabel(at));
        }
        self.bytes[self.start] = (self.end - self.start - 1) as u8;
        self.start = self.end;
        self.end += 1;
        Ok(())
    }

    /// Takes a dot or a character of the text, and says how many bytes it has.
    pub fn take(&mut self, text: &[u8], at: usize) -> Result<usize, NameFault>
        requires spelling { (done : List (List ℕ)) × (label : List ℕ)
            × SpellsSoFar self.old.bytes self.old.start self.old.end done label }
        requires within { at < length text.now }
        ensures some { IfOk result (λ n. 0 < n) }
        ensures room { IfOk result (λ n. at + n ≤ length text.now) }
        ensures ok { IfOk result (λ n. (done : List (List ℕ)) (label : List ℕ)
            → SpellsSoFar self.old.bytes self.old.start self.old.end done label
            → Advances text.now done label at n self.new.bytes self.new.start self.new.end) }
        ensures err { IfErr result (λ fault. (done : List (List ℕ)) (label : List ℕ)
            → SpellsSoFar self.old.bytes self.old.start self.old.end done label
            → read_from (Reading 0 done label) at (drop at text.now) ≡ Stopped fault) }
    {
        let b = text[at];
        if b == b'.' {
            return match self.end_label(at) {
                Ok(()) => Ok(1),
                Err(fault) => Err(fault),
            };
        }
        if b == b'\\' {
            let Some(value) = octal_at(behind(text, at + 1)) else {
                return Err(NameFault::BadEscape(at));
            };
            return match self.add_character(at, value) {
                Ok(()) => Ok(4),
                Err(fault) => Err(fault),
            };
        }
        if !is_graphic(b) {
            return Err(NameFault::BadByte(at));
        }
        match self.add_character(at, b) {
            Ok(()) => Ok(1),
            Err(fault) => Err(fault),
        }
    }

    /// The name, where the text ends at this byte.
    pub fn finish(mut self, at: usize) -> Result<Name, NameFault>
        requires { (done : List (List ℕ)) × (label : List ℕ)
            × SpellsSoFar self.bytes self.start self.end done label }
        ensures { (done : List (List ℕ)) (label : List ℕ)
            → SpellsSoFar self.bytes self.start self.end done label
            → result ≡ result_map_both lowered (λ fault. fault) (ended done label at) }
    {
        if self.end == self.start + 1 {
            return self.last(at);
        }
        match self.end_label(at) {
            Ok(()) => self.last(at),
            Err(fault) => Err(fault),
        }
    }

    /// The name of the whole labels.
    fn last(&mut self, at: usize) -> Result<Name, NameFault>
        requires { (done : List (List ℕ))
            × SpellsSoFar self.old.bytes self.old.start self.old.end done [] }
        ensures { (done : List (List ℕ)) → SpellsSoFar self.old.bytes self.old.start self.old.end done []
            → result ≡ result_map_both lowered (λ fault. fault) (ended done [] at) }
    {
        if self.start == 0 {
            return Err(NameFault::EmptyLabel(at));
        }
        self.bytes[self.start] = 0;
        Ok(Name::stored(front(&self.bytes, self.start + 1)))
    }
}

/// Whether a byte is printable ASCII without the space.
fn is_graphic(b: u8) -> bool
    ensures { result ≡ is_graphic b }
{
    b >= 0x21 && b <= 0x7e
}
