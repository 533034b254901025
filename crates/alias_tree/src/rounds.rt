//! One round over all sets: from which of them the links lead on once more.

ghost use Rattle.std.specs.Prelude.{◌≡◌, ◌↔◌, ◌≤◌, ◌+◌, length, IsTrue};
ghost use Rattle.alias_tree.specs.Marks.{IsMarkedWithin, AreLedOn};
ghost use Rattle.alias_tree.specs.Targets.{AreWithin};

use crate::targets::Target;

/// Marks each place whose target group has a marked place.
pub fn lead_on(targets: &[Target], marks: &[bool], next: &mut [bool])
    requires within { AreWithin targets.now (length marks.now) }
    requires one_each { length next.old ≡ length targets.now }
    ensures { AreLedOn targets.now marks.now next.new }
{
    for i in 0..targets.len() {
        next[i] = is_marked_within(marks, targets[i]);
    }
}

/// Whether one of these places is marked.
fn is_marked_within(marks: &[bool], target: Target) -> bool
    requires { target.start + target.count ≤ length marks.now }
    ensures { IsTrue result ↔ IsMarkedWithin marks.now target }
{
    for i in target.start..target.start + target.count {
        if marks[i] {
            return true;
        }
    }
    false
}
