//! The first mark among those of a list of sets.

ghost use Rattle.alias_tree.specs.Marks.{IsFirstMark};

/// The first place that is marked; None where none is.
pub fn first_marked(marks: &[bool]) -> Option<usize>
    ensures { IsFirstMark marks.now result }
{
    for i in 0..marks.len() {
        if marks[i] {
            return Some(i);
        }
    }
    None
}
